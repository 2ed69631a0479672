// What a program shows of a word.
ghost use Rattle.std.specs.Prelude.{◌≡◌};
ghost use Rattle.forms.specs.Said.{said};
ghost use Rattle.forms.specs.Shows.{seen, showing, ShowsItsForm};

use crate::name::Name;
use crate::word::Spoken;
use levels::numbers::{FormNumber, Program};
use levels::programs::{program2, program3};
use levels::rules::newest;

// What is shown: the draught behind by programs that know of it, the second name likewise; and the form in which the word came.
#[derive(Clone, Copy)]
pub struct Shown {
    pub ship: u32,
    pub lock: u16,
    pub before: u16,
    pub behind: Option<u16>,
    pub name: Option<Name>,
    pub form: FormNumber,
}

// What a program shows of a word that was said in some form.
pub fn show(program: Program, spoken: Spoken) -> Shown
    ensures { seen result ≡ showing program.0 (said spoken) }
{
    let word = spoken.read();
    let newest = newest(program).0;
    let behind = (newest >= program2::GREATEST_FORM).then_some(word.behind);
    let name = (newest >= program3::GREATEST_FORM).then_some(word.name);
    Shown {
        ship: word.ship,
        lock: word.lock,
        before: word.before,
        behind,
        name,
        form: spoken.form(),
    }
}

// A program shows of a word just what its own greatest form has of it.
pub fn shows_its_form_stands()
    ensures { ShowsItsForm }
{}

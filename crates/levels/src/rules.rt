// What a program reads, and which messages a station looks at.
ghost use Rattle.std.specs.Prelude.{◌≡◌};
ghost use Rattle.levels.specs.Rules as spec;

use crate::numbers::{BoatId, FormNumber, Program};
use crate::programs::{program1, program2, program3};

// The newest form that a program reads and writes. There is no program 0. A table, as one match.
pub fn newest(program: Program) -> FormNumber
    ensures { result.0 ≡ spec.newest program.0 }
{
    match program.0 {
        0 => FormNumber(0),
        1 => FormNumber(program1::GREATEST_FORM),
        2 => FormNumber(program2::GREATEST_FORM),
        _ => FormNumber(program3::GREATEST_FORM),
    }
}

// Does a program read a form? Form 0 is none.
pub fn reads(program: Program, form: FormNumber) -> bool
    ensures { result ≡ spec.reads program.0 form.0 }
{
    (1..=newest(program).0).contains(&form.0)
}

// Does a station judge a message at all? One for another is passed over, whatever is in it.
pub fn accepts(station: BoatId, to: BoatId) -> bool
    ensures { result ≡ spec.accepts station.0 to.0 }
{
    to == station
}

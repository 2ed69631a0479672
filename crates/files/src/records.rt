// How the records of a boat's and of the harbour's file begin. All numbers have their high byte first.
ghost use Rattle.std.specs.Prelude.{◌≡◌, length, Ok, Some};
ghost use Rattle.files.specs.Encodings.{AllSeen};
ghost use Rattle.files.specs.Records.{sized, named_front, word_front, boat_front, harbour_front};
ghost use Rattle.files.specs.Shapes.{boat_within, boat_more, boat_cut, harbour_within, harbour_more, harbour_cut_lem};

use crate::format::Format;
use crate::front::Wrong;
use crate::kind::Kind;
use forms::name::LONGEST;
use levels::numbers::{FormNumber, Program};
use levels::rules::reads;

// Where a word's record has its form.
const FORM_AT: usize = 7;

// Where the record of a word in form 3 has the length of its name; the name stands behind it, at its end.
const NAME_LENGTH_AT: usize = 18;

// A boat's file, as a program reads it.
#[derive(Clone, Copy, PartialEq, Eq, Debug)]
pub struct BoatFormat {
    pub program: Program,
}

// The harbour's file.
#[derive(Clone, Copy, PartialEq, Eq, Debug)]
pub struct HarbourFormat;

// A record of `size` bytes, where they are all there.
fn sized(size: usize, bytes: &[u8]) -> Option<usize>
    ensures { result ≡ sized size bytes.now }
{
    (size <= bytes.len()).then_some(size)
}

// The record of a word in form 3, whose size follows from its name's length.
fn named(bytes: &[u8]) -> Result<Option<usize>, Wrong>
    ensures { result ≡ named_front bytes.now }
{
    let Some(&length) = bytes.get(NAME_LENGTH_AT) else {
        return Ok(None);
    };
    let length = usize::from(length);
    if length > LONGEST {
        return Err(Wrong);
    }
    Ok(sized(NAME_LENGTH_AT + 1 + length, bytes))
}

// The record of a word: kind, from, number, and then the word, whose form is its first byte. The form is a number, since any may stand there.
fn word(program: Program, bytes: &[u8]) -> Result<Option<usize>, Wrong>
    ensures { result ≡ word_front program.0 bytes.now }
{
    let Some(&form) = bytes.get(FORM_AT) else {
        return Ok(None);
    };
    if !reads(program, FormNumber(form)) {
        return Err(Wrong);
    }
    match form {
        1 => Ok(sized(16, bytes)),
        2 => Ok(sized(18, bytes)),
        _ => named(bytes),
    }
}

impl Format for BoatFormat {
    ghost begins = { λ f. boat_front f.program.0 };

    ghost known = { λ f bs. boat_front f.program.0 bs ≡ Ok (Some (length bs)) };

    ghost within = { λ f bs n e. boat_within f.program.0 bs n e };

    ghost filled = { λ f bs e. (boat_within f.program.0 bs (length bs) e).0 };

    ghost stays = { λ f bs more e. boat_more f.program.0 bs more e };

    ghost cut = { λ f bs n e l. boat_cut f.program.0 bs n e l };

    fn front(&self, bytes: &[u8]) -> Result<Option<usize>, Wrong> {
        let Some(&kind) = bytes.first() else {
            return Ok(None);
        };
        match Kind::try_from(kind)? {
            Kind::Floor | Kind::Level | Kind::Used => Ok(sized(5, bytes)),
            Kind::Word => word(self.program, bytes),
            Kind::Boat => Err(Wrong),
        }
    }
}

impl Format for HarbourFormat {
    ghost begins = { λ _. harbour_front };

    ghost known = { λ _ bs. harbour_front bs ≡ Ok (Some (length bs)) };

    ghost within = { λ f bs n e. harbour_within bs n e };

    ghost filled = { λ f bs e. (harbour_within bs (length bs) e).0 };

    ghost stays = { λ f bs more e. harbour_more bs more e };

    ghost cut = { λ f bs n e l. harbour_cut_lem bs n e l };

    fn front(&self, bytes: &[u8]) -> Result<Option<usize>, Wrong> {
        let Some(&kind) = bytes.first() else {
            return Ok(None);
        };
        match Kind::try_from(kind)? {
            Kind::Level => Ok(sized(5, bytes)),
            Kind::Boat => Ok(sized(7, bytes)),
            Kind::Floor | Kind::Word | Kind::Used => Err(Wrong),
        }
    }
}

// Every record that a program reads, as bytes, is one that its format knows.
pub fn records_stand()
    ensures { AllSeen }
{}

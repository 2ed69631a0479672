// What a record tells of.
ghost use Rattle.files.specs.Kinds.{Decodes};

use crate::front::Wrong;

// A record's kind, which its first byte tells.
#[derive(Clone, Copy, PartialEq, Eq, Debug)]
pub enum Kind {
    Floor,
    Level,
    Word,
    Boat,
    Used,
}

impl TryFrom<u8> for Kind {
    type Error = Wrong;

    ghost try_from_gives = { Decodes };

    fn try_from(code: u8) -> Result<Self, Wrong> {
        match code {
            6 => Ok(Kind::Floor),
            7 => Ok(Kind::Level),
            8 => Ok(Kind::Word),
            9 => Ok(Kind::Boat),
            10 => Ok(Kind::Used),
            _ => Err(Wrong),
        }
    }
}

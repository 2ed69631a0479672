// What can be wrong with a line or a step.
ghost use Rattle.std.specs.Prelude.{◌≡◌, Some};
ghost use Rattle.script.specs.Texts.{text_of};

use std::fmt;

// A fault whose text has no number in it.
#[derive(Clone, Copy, PartialEq, Eq, Debug)]
pub enum Fault {
    // a line that is no command
    LongLine,
    UnknownCommand,
    TooFewWords,
    TooManyWords,
    NotBoats,
    NotBoat,
    NotProgram,
    NotLevel,
    NotShip,
    NotLock,
    NotDraught,
    NotName,
    LongName,
    NotMessage,
    NotSeed,
    NotCount,
    // a command that cannot be played
    NoBoatsYet,
    BoatsAlready,
    OlderProgram,
    NotOlder,
    ToItself,
    NeverSent,
    Lost,
    NoSense,
    // a refusal
    NotReadable,
    OlderNumber,
    BelowFloor,
    NotPromised,
    NotListed,
    Full,
    Memory,
}

impl Fault {
    // Its text.
    pub fn text(self) -> &'static str
        ensures { result.now ≡ text_of self }
    {
        match self {
            Fault::LongLine => "line too long",
            Fault::UnknownCommand => "unknown command",
            Fault::TooFewWords => "too few words",
            Fault::TooManyWords => "too many words",
            Fault::NotBoats => "boats are 1 to 8",
            Fault::NotBoat => "a boat is a number up to 65535",
            Fault::NotProgram => "a program is 1 to 3",
            Fault::NotLevel => "a level is 1 to 4294967295",
            Fault::NotShip => "a ship is a number up to 4294967295",
            Fault::NotLock => "a lock is a number up to 65535",
            Fault::NotDraught => "a draught is a number up to 65535",
            Fault::NotName => "a backslash in a name begins \\xNN",
            Fault::LongName => "a name has at most 40 bytes",
            Fault::NotMessage => "a message is w or n and a number from 1",
            Fault::NotSeed => "a seed is a number up to 18446744073709551615",
            Fault::NotCount => "a seed draws 0 to 1000000 commands",
            Fault::NoBoatsYet => "no boats yet",
            Fault::BoatsAlready => "the boats are there already",
            Fault::OlderProgram => "an older program",
            Fault::NotOlder => "not an older program",
            Fault::ToItself => "a word to itself",
            Fault::NeverSent => "never sent",
            Fault::Lost => "lost",
            Fault::NoSense => "no sense",
            Fault::NotReadable => "not readable",
            Fault::OlderNumber => "an older number",
            Fault::BelowFloor => "below its floor",
            Fault::NotPromised => "not promised",
            Fault::NotListed => "not on the list",
            Fault::Full => "full",
            Fault::Memory => "memory",
        }
    }
}

impl fmt::Display for Fault {
    ghost output = { λ fault. Some (text_of fault) };

    fn fmt<W: fmt::Write>(&self, f: &mut fmt::Formatter<W>) -> fmt::Result {
        f.write_str(self.text())
    }
}

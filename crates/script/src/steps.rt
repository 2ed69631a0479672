// What a script may ask of a rehearsal.
ghost use Rattle.std.specs.Prelude.{◌≡◌, Some, IfOk};
ghost use Rattle.script.specs.Commands.{comes, name_of, Names};

use crate::faults::Fault;
use crate::numbers::number;
use crate::wording::Given;
use forms::word::Spoken;
use levels::numbers::{BoatId, Level, Program};
use std::fmt;
use std::str::FromStr;
use world::events::Event;

// A message by its name in the script: words and notices are numbered apart, from 1, in the order in which they were sent.
#[derive(Clone, Copy)]
pub enum Message {
    Word(u64),
    Notice(u64),
}

impl Message {
    // Its coming to the station that it is for.
    pub fn coming(self) -> Event
        ensures { result ≡ comes self }
    {
        match self {
            Message::Word(n) => Event::BringWord {
                number: n.saturating_sub(1) as usize,
            },
            Message::Notice(n) => Event::BringNotice {
                number: n.saturating_sub(1) as usize,
            },
        }
    }
}

// Reads such a name.
impl FromStr for Message {
    type Err = Fault;

    ghost from_str_gives = { λ word message. IfOk message (Names word) };

    fn from_str(word: &str) -> Result<Message, Fault> {
        let (sort, digits) = word.split_at_checked(1).ok_or(Fault::NotMessage)?;
        let number = number(digits, 1..=u64::MAX).ok_or(Fault::NotMessage)?;
        match sort {
            "w" => Ok(Message::Word(number)),
            "n" => Ok(Message::Notice(number)),
            _ => Err(Fault::NotMessage),
        }
    }
}

impl fmt::Display for Message {
    ghost output = { λ message. Some (name_of message) };

    fn fmt<W: fmt::Write>(&self, f: &mut fmt::Formatter<W>) -> fmt::Result {
        match self {
            Message::Word(number) => write!(f, "w{number}"),
            Message::Notice(number) => write!(f, "n{number}"),
        }
    }
}

// One step of a rehearsal.
#[derive(Clone, Copy)]
pub enum Step {
    // a boat gets a program at least as new
    Renew {
        boat: BoatId,
        to: Program,
    },
    // a boat gets an older program back
    Back {
        boat: BoatId,
        to: Program,
    },
    // a boat promises the program that it runs
    Promise {
        boat: BoatId,
    },
    // a boat tells its promise again, if that is not answered yet
    Tick {
        boat: BoatId,
    },
    // the harbour says a level
    Announce {
        level: Level,
    },
    // a boat loses its power and comes up again
    Cut {
        boat: BoatId,
    },
    // a boat says a word, given to it in some form, to another
    Say {
        from: BoatId,
        to: BoatId,
        word: Spoken,
    },
    // what a boat shows of the words that it has taken
    Show {
        boat: BoatId,
    },
    // the next message that is sent is lost
    Lose,
    // the next message that is sent is held back
    Hold,
    // a message comes late, or once more
    Come {
        message: Message,
    },
    // the whole fleet is brought to a level
    Raise {
        level: Level,
    },
}

impl fmt::Display for Step {
    fn fmt<W: fmt::Write>(&self, f: &mut fmt::Formatter<W>) -> fmt::Result {
        match *self {
            Step::Renew { boat, to } => write!(f, "renew {boat} {to}"),
            Step::Back { boat, to } => write!(f, "back {boat} {to}"),
            Step::Promise { boat } => write!(f, "promise {boat}"),
            Step::Tick { boat } => write!(f, "tick {boat}"),
            Step::Announce { level } => write!(f, "level {level}"),
            Step::Cut { boat } => write!(f, "cut {boat}"),
            Step::Say { from, to, word } => {
                let word = Given { word };
                write!(f, "say {from} {to}{word}")
            }
            Step::Show { boat } => write!(f, "show {boat}"),
            Step::Lose => f.write_str("lose"),
            Step::Hold => f.write_str("late"),
            Step::Come { message } => write!(f, "come {message}"),
            Step::Raise { level } => write!(f, "raise {level}"),
        }
    }
}

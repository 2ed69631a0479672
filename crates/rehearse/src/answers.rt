// What is printed of a step and of a message.
use forms::sent::Sent;
use levels::numbers::{BoatId, Program};
use levels::refusals::Refusal;
use script::faults::Fault;
use std::fmt;
use std::fmt::Display;
use std::io::{BufWriter, Stdout};
use world::messages::Notice;

// Where all is printed.
pub type Output = BufWriter<Stdout>;

// Why something was not done.
#[derive(Clone, Copy)]
pub enum Reason {
    Fault(Fault),
    NoBoat(BoatId),
    BelowFloor(Program),
    NotPromised(BoatId),
}

impl From<Fault> for Reason {
    fn from(fault: Fault) -> Reason {
        Reason::Fault(fault)
    }
}

impl fmt::Display for Reason {
    fn fmt<W: fmt::Write>(&self, f: &mut fmt::Formatter<W>) -> fmt::Result {
        match self {
            Reason::Fault(fault) => fault.fmt(f),
            Reason::NoBoat(boat) => write!(f, "no boat {boat}"),
            Reason::BelowFloor(floor) => write!(f, "below its floor {floor}"),
            Reason::NotPromised(boat) => write!(f, "boat {boat} has not promised it"),
        }
    }
}

// What was not done, as which refusal and why.
#[derive(Clone, Copy)]
pub struct Refused {
    pub refusal: Refusal,
    pub reason: Reason,
}

impl Refused {
    // There was no memory for it.
    pub(crate) fn no_memory() -> Refused {
        Refused {
            refusal: Refusal::NoMemory,
            reason: Fault::Memory.into(),
        }
    }
}

// A reason that stands alone is that something makes no sense; the others come with their refusal.
impl From<Reason> for Refused {
    fn from(reason: Reason) -> Refused {
        Refused {
            refusal: Refusal::Invalid,
            reason,
        }
    }
}

impl From<Fault> for Refused {
    fn from(fault: Fault) -> Refused {
        Reason::Fault(fault).into()
    }
}

impl fmt::Display for Refused {
    fn fmt<W: fmt::Write>(&self, f: &mut fmt::Formatter<W>) -> fmt::Result {
        let Refused { refusal, reason } = *self;
        match refusal.number() {
            Some(number) if refusal.passes_over() => write!(f, "over {number} {reason}"),
            Some(number) => write!(f, "no {number} {reason}"),
            None if refusal == Refusal::NoMemory => write!(f, "no - {reason}"),
            None => write!(f, "bad {reason}"),
        }
    }
}

// What came of a step, or of a message that was sent.
#[derive(Clone, Copy)]
pub enum Answer {
    // it was done
    Done,
    // it was not done
    Refused(Refused),
    // the message never comes
    Lost,
    // the message is held back
    Late,
}

impl From<Result<(), Refused>> for Answer {
    fn from(played: Result<(), Refused>) -> Answer {
        match played {
            Ok(()) => Answer::Done,
            Err(refused) => Answer::Refused(refused),
        }
    }
}

impl fmt::Display for Answer {
    fn fmt<W: fmt::Write>(&self, f: &mut fmt::Formatter<W>) -> fmt::Result {
        match self {
            Answer::Done => f.write_str("ok"),
            Answer::Refused(refused) => refused.fmt(f),
            Answer::Lost => f.write_str("lost"),
            Answer::Late => f.write_str("late"),
        }
    }
}

// What was sent.
#[derive(Clone, Copy)]
pub enum Text {
    Word(Sent),
    Notice(Notice),
}

// Of a word its form is told; `show` has the rest.
impl fmt::Display for Text {
    fn fmt<W: fmt::Write>(&self, f: &mut fmt::Formatter<W>) -> fmt::Result {
        let harbour = BoatId::HARBOUR;
        match *self {
            Text::Word(word) => {
                let Sent {
                    from,
                    to,
                    spoken,
                    ..
                } = word;
                let form = spoken.form();
                write!(f, "form {form} from {from} to {to}")
            }
            Text::Notice(Notice::Promised { from, floor }) => {
                write!(f, "promised {floor} from {from} to {harbour}")
            }
            Text::Notice(Notice::Heard { to, floor }) => {
                write!(f, "heard {floor} from {harbour} to {to}")
            }
            Text::Notice(Notice::Allowed { to, level }) => {
                write!(f, "level {level} from {harbour} to {to}")
            }
            Text::Notice(Notice::Taken { from, level }) => {
                write!(f, "has it {level} from {from} to {harbour}")
            }
        }
    }
}

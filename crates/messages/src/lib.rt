// What stations say to each other.
#![tactic(auto)]

ghost use Rattle.std.specs.Prelude.{◌≡◌};
ghost use Rattle.messages.specs.Messages.{letter, telling, notice};

use forms::word::Spoken;
use levels::numbers::{BoatId, Level, Program};

// What a message says. All but a word state a fact that stays true for ever.
#[derive(Clone, Copy)]
pub enum Body {
    // a boat to another: a word, in some form
    Word(Spoken),
    // a boat to the harbour: that floor was promised
    Promise(Program),
    // the harbour to a boat: the ledger has that floor of it
    Heard(Program),
    // the harbour to a boat: all of the list have promised that level
    Allowed(Level),
    // a boat to the harbour: that level was taken
    Taken(Level),
}

// A message: whose it is, whom it is for, and its number, which counts a boat's words and is 0 in all else.
#[derive(Clone, Copy)]
pub struct Message {
    pub from: BoatId,
    pub to: BoatId,
    pub number: u32,
    pub body: Body,
}

impl Message {
    // What is no word has the number 0.
    pub fn notice(from: BoatId, to: BoatId, body: Body) -> Message
        ensures { letter result ≡ notice from.0 to.0 (telling body) }
    {
        Message {
            from,
            to,
            number: 0,
            body,
        }
    }
}

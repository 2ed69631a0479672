// What stations write down.
#![tactic(auto)]

use forms::word::Spoken;
use levels::numbers::{BoatId, Level, Program};

// A record of a station's journal. Boats write floors, levels, words and numbers; the harbour boats and levels.
#[derive(Clone, Copy)]
pub enum Record {
    // a boat has promised not to go below that program
    Floor(Program),
    // a level: a boat has taken it; the harbour has said it
    Allowed(Level),
    // a word was taken, in the form in which it is kept
    Word {
        from: BoatId,
        number: u32,
        word: Spoken,
    },
    // a boat of the list, and a floor that it was heard to promise
    Listed {
        boat: BoatId,
        floor: Program,
    },
    // the numbers of a boat's own words are used up to this one
    Used(u32),
}

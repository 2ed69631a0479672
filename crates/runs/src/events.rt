// What may happen.
use forms::word::Spoken;
use levels::numbers::{BoatId, Level, Program};

// One event. (The events of the fleet in memory, in `world`, have no fates, and its programs always run: another list.)
// Words and notices are numbered apart, from 0, in the order in which they were sent.
#[derive(Clone, Copy)]
pub enum Event {
    // the harbour puts a boat on its list
    Enlist {
        boat: BoatId,
    },
    // a boat gets a program at least as new
    Renew {
        boat: BoatId,
        to: Program,
    },
    // a boat gets an older program back
    GoBack {
        boat: BoatId,
        to: Program,
    },
    // a station's program begins again over its file; the harbour is station 0
    Start {
        station: BoatId,
    },
    // nothing happens at a station, unless the event has a fate
    Rest {
        station: BoatId,
    },
    // a boat promises not to go below the program that it runs, and tells the harbour
    Promise {
        boat: BoatId,
    },
    // a boat tells its promise again, if that is not answered yet
    Tick {
        boat: BoatId,
    },
    // the harbour says a level to every boat of its list
    Announce {
        level: Level,
    },
    // a boat says a word to another; the word was given to it in some form
    Say {
        from: BoatId,
        to: BoatId,
        word: Spoken,
    },
    // a word that was sent comes to the boat that it is for
    BringWord {
        number: usize,
    },
    // a notice that was sent comes to the station that it is for
    BringNotice {
        number: usize,
    },
}

// How far a station comes with a step. Its effects are, where it writes: the append, the sync, and each message; where it begins: the cutting back, the sync, and each message; else each message.
#[derive(Clone, Copy)]
pub enum Fate {
    // it comes to its end, and goes on
    Whole,
    // its program ends after so many effects; what was not synced stays, and is still not synced
    Killed { effects: usize },
    // the power goes after so many effects; of what was not synced the oldest so many records are left
    Cut { effects: usize, left: usize },
}

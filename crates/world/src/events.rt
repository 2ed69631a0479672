// What may happen.
use forms::word::Spoken;
use levels::numbers::{BoatId, Level, Program};

// One event. (The events of stations with files, in `runs`, have fates, and a program may begin or rest: another list.)
// Words and notices are numbered apart, from 0, in the order in which they were sent.
#[derive(Clone, Copy)]
pub enum Event {
    // the harbour puts a boat on its list
    Enlist {
        boat: BoatId,
    },
    // a boat gets a program at least as new
    Renew {
        boat: BoatId,
        to: Program,
    },
    // a boat gets an older program back
    GoBack {
        boat: BoatId,
        to: Program,
    },
    // a boat loses its power and comes up again
    Restart {
        boat: BoatId,
    },
    // a boat promises not to go below the program that it runs, and tells the harbour
    Promise {
        boat: BoatId,
    },
    // a boat tells its promise again, if that is not answered yet
    Tick {
        boat: BoatId,
    },
    // the harbour says a level to every boat of its list
    Announce {
        level: Level,
    },
    // a boat says a word to another; the word was given to it in some form
    Say {
        from: BoatId,
        to: BoatId,
        word: Spoken,
    },
    // a word that was sent comes to the boat that it is for
    BringWord {
        number: usize,
    },
    // a notice that was sent comes to the station that it is for
    BringNotice {
        number: usize,
    },
}

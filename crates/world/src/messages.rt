// What is said. A message may come at once, late, more than once, or never.
use levels::numbers::{BoatId, Level, Program};

// What boats and harbour tell each other about programs. Each states a fact that stays true for ever. (Stations with files send `messages::Message`, which has words and numbers too.)
#[derive(Clone, Copy)]
pub enum Notice {
    // to the harbour: that floor was promised
    Promised { from: BoatId, floor: Program },
    // to a boat: the ledger has that floor of it
    Heard { to: BoatId, floor: Program },
    // to a boat: all of the list have promised that level
    Allowed { to: BoatId, level: Level },
    // to the harbour: that level was taken
    Taken { from: BoatId, level: Level },
}

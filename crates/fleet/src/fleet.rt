// The harbour, the boats, and all that was ever sent.
use forms::sent::Sent;
use ledger::book::Ledger;
use levels::standing::Standing;
use logbooks::log::Logbook;
use world::messages::Notice;

mod begins;
mod reads;
mod steps;

// A boat: its standing, whether the harbour has answered its promise, which it forgets when its program ends, and the numbers that it has used for its words. That an answer came hangs on no other field, so it is a flag.
#[derive(Clone, Copy)]
pub struct Vessel {
    pub standing: Standing,
    pub answered: bool,
    pub used: u32,
}

// A boat with what it keeps of the words that it took. (A boat with a file, in `boats`, has the same and gives records to be synced.)
#[derive(Drop)]
pub struct Berth {
    pub vessel: Vessel,
    pub log: Logbook,
}

// Boat number i stands at place i - 1. What was sent is never taken away, the oldest first.
#[derive(Drop)]
pub struct Fleet {
    harbour: Ledger,
    boats: Vec<Berth>,
    words: Vec<Sent>,
    notices: Vec<Notice>,
}

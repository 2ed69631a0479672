// A boat as a program that runs.
use levels::numbers::BoatId;
use levels::standing::Standing;
use logbooks::log::Logbook;

mod opens;
mod reads;
mod speaks;

// Its number, and what it knows.
#[derive(Drop)]
pub struct Boat {
    number: BoatId,
    memory: Memory,
}

// Its standing, whether its promise was answered, the numbers that its words have used, and the words that it keeps. (A boat of the fleet in memory, `fleet::Berth`, has the same and writes nothing down: its steps give no records.) That an answer came hangs on no other field, so it is a flag.
#[derive(Drop)]
struct Memory {
    standing: Standing,
    answered: bool,
    used: u32,
    log: Logbook,
}

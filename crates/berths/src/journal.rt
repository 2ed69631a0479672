// A file that is played.
use records::Record;
use synced::Synced;

pub(crate) mod effects;

// The records of a file, the oldest first, of which some are synced.
#[derive(Drop)]
pub struct Journal {
    records: Synced<Record>,
}

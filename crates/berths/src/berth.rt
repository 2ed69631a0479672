// A station with its file.
use crate::journal::Journal;

mod steps;

// Its file, and what its program knows, while one runs.
#[derive(Drop)]
pub struct Berth<S> {
    pub journal: Journal,
    pub station: Option<S>,
}

// A station with its file, as a rehearsal has it: the file is a list of records, of which some are synced.
#![tactic(auto)]

pub mod berth;
mod course;
mod doing;
pub mod journal;
pub mod port;
pub mod vessel;

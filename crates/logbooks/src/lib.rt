// The words that a boat keeps: the last of each ship, and the last number that was taken from each boat about each ship.
#![tactic(auto)]

pub mod log;
pub mod slot;

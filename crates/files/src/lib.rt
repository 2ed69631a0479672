// What a station asks of the outside, and what a file is after a fall.
#![tactic(auto)]

pub mod disk;
pub mod format;
pub mod front;
pub mod kind;
pub mod outside;
pub mod plays;
pub mod records;
pub mod recovers;
pub mod steps;

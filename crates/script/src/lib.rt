// What a script may ask for: its lines read, its commands, the steps drawn from a seed, and the wording of what is printed.
#![tactic(auto)]

pub mod command;
pub mod faults;
pub mod lines;
mod numbers;
pub mod seed;
pub mod steps;
pub mod wording;

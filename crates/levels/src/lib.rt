// Programs, promises and levels, by value.
#![tactic(auto)]

pub mod moves;
pub mod numbers;
pub mod programs;
pub mod refusals;
pub mod rules;
pub mod standing;

// A boat: what it does with each input.
#![tactic(auto)]

pub mod boat;
pub mod survey;

// What stations have in common: a step, and the laws of what they know and write.
#![tactic(auto)]

pub mod laws;
pub mod step;
pub mod unheard;

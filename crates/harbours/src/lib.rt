// The harbour: what it does with each input.
#![tactic(auto)]

pub mod harbour;

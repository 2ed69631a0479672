// A harbour and its boats in one memory, and what each event makes of them.
#![tactic(auto)]

pub mod fleet;

// Whatever may happen to a harbour and its boats, with files and power cuts: events and their fates, what each makes of the world, and what is promised after any of them.
#![tactic(auto)]

pub mod cases;
pub mod events;
pub mod promises;

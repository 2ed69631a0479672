// Whatever may happen to a harbour and its boats, as a world of values: events, what each makes of the world, and what is promised after any of them.
#![tactic(auto)]

pub mod cases;
pub mod events;
pub mod messages;
pub mod promises;

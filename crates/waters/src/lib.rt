// A harbour and its boats with their files, and all that was ever sent. A boat does what it is told.
#![tactic(auto)]

pub mod waters;

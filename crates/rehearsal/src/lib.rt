// A fleet that keeps to the rules from its start: whatever may happen, played one event at a time.
#![tactic(auto)]

pub mod rehearsal;

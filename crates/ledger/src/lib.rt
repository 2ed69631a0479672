// The harbour's ledger: its list of boats, what each has promised, and the level said.
#![tactic(auto)]

pub mod book;

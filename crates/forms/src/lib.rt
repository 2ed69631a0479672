// Words, and the forms in which they are said.
#![tactic(auto)]

pub mod name;
pub mod sent;
pub mod shown;
pub mod word;

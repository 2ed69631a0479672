// A boat's standing.
ghost use Rattle.std.specs.Prelude.{◌≤◌};

use crate::numbers::{Level, Program};

// The program that a boat runs, its floor (the program below which it has promised not to go), and its level (the highest that it was told may be used).
#[derive(Clone, Copy)]
pub struct Standing {
    pub program: Program,
    pub floor: Program,
    pub level: Level,
    ghost floored: { floor.0 ≤ program.0 },
    ghost begun: { 1 ≤ floor.0 },
    ghost levelled: { 1 ≤ level.0 },
}

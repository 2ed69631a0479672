// A fleet that keeps to the rules from its start.
ghost use Rattle.fleet.specs.Fleets.{world};
ghost use Rattle.world.specs.Promises.{Reached};

use fleet::fleet::Fleet;

mod plays;
mod rising;

// There are events that have made the fleet what it is, from the start.
#[derive(Drop)]
pub struct Rehearsal {
    fleet: Fleet,
    ghost reached: { ∥ Reached (world fleet) ∥₁ },
}

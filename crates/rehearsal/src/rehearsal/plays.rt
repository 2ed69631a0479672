// What can be done with a rehearsal, and what is promised of it.
ghost use Rattle.std.specs.Prelude.{◌≡◌};
ghost use Rattle.levels.specs.Verdicts.{Tries};
ghost use Rattle.fleet.specs.Fleets.{world};
ghost use Rattle.world.specs.Worlds as spec;
ghost use Rattle.rehearsal.specs.Rehearsals.{Began};
ghost use Rattle.world.specs.Promises.{Promises};

use super::Rehearsal;
use fleet::fleet::Fleet;
use levels::refusals::Refusal;
use std::alloc::Global;
use world::events::Event;

impl Rehearsal {
    // So many boats, 1 to 8, at their start; nobody is on the harbour's list yet.
    pub fn new(heap: Global, boats: usize) -> Result<Rehearsal, Refusal>
        ensures { Began boats result }
    {
        let fleet = Fleet::new(heap, boats)?;
        Ok(Rehearsal { fleet })
    }

    // Plays one event. What is refused changes nothing.
    pub fn play(&mut self, event: Event) -> Result<(), Refusal>
        ensures plays { Tries (spec.play (world self.old.fleet) event) result (world self.old.fleet) (world self.new.fleet) }
        ensures promises { ∥ Promises (world self.new.fleet) ∥₁ }
    {
        self.fleet.play(event)
    }

    // The fleet as it stands.
    pub fn fleet(&self) -> &Fleet
        ensures { result.now ≡ self.now.fleet }
    {
        &self.fleet
    }
}

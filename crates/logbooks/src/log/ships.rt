// What is kept of one ship.
ghost use Rattle.std.specs.Prelude.{◌≡◌, None, Ok};
ghost use Rattle.levels.specs.Verdicts.{Tries};
ghost use Rattle.logbooks.specs.Ships.{seen, noted_by};
ghost use Rattle.logbooks.specs.Slots.{kept};

use super::Ship;
use crate::slot::{Slot, write};
use levels::numbers::BoatId;
use levels::refusals::Refusal;
use std::alloc::Global;
use std::collections::BTreeMap;

impl Ship {
    // The last number that was taken from a boat.
    pub(super) fn last(&self, from: BoatId) -> Option<u32>
        ensures { result ≡ (seen self.now).1 from.0 }
    {
        if from == self.slot.from {
            return Some(self.last);
        }
        self.others.get(&from).copied()
    }

    // A ship of which the first word is taken.
    pub(super) fn new(heap: Global, slot: Slot, last: u32) -> Ship
        ensures { seen result ≡ (kept slot, noted_by (λ b. None) slot.from.0 last) }
    {
        Ship {
            slot,
            last,
            others: BTreeMap::new(heap),
        }
    }

    // The slot is written anew, and a last number noted.
    pub(super) fn note(&mut self, slot: Slot, last: u32) -> Result<(), Refusal>
        ensures { Tries (Ok (kept slot, noted_by (seen self.old).1 slot.from.0 last)) result (seen self.old) (seen self.new) }
    {
        if slot.from != self.slot.from {
            self.others.insert(self.slot.from, self.last)?;
        }
        write(&mut self.slot, slot);
        self.last = last;
        Ok(())
    }
}

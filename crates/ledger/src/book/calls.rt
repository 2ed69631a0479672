// What the harbour does with its ledger.
ghost use Rattle.std.specs.Prelude.{◌≡◌};
ghost use Rattle.ledger.specs.Entries.{floor_of};
ghost use Rattle.ledger.specs.Ledgers.{book, listing, hearing, admitting, floor_number, floor_in};
ghost use Rattle.levels.specs.Verdicts.{Replies, Tries};

use super::{Ledger, MOST};
use levels::numbers::{BoatId, Program};
use levels::refusals::Refusal;

impl Ledger {
    // The highest floor that was heard of a boat, if it is on the list.
    #[tactic(auto, using(crate::proofs::Maps::floor_found))]
    pub fn floor_of(&self, boat: BoatId) -> Option<Program>
        ensures { floor_in result ≡ floor_of boat.0 (book self.now).list }
    {
        self.floors.get(&boat).copied()
    }

    // Puts a boat on the list, unless it is there already.
    pub fn list(&mut self, boat: BoatId) -> Result<(), Refusal>
        ensures { Tries (listing (book self.old) boat.0) result (book self.old) (book self.new) }
    {
        if boat == BoatId::HARBOUR {
            return Err(Refusal::Invalid);
        }
        if self.said.0 > 1 && !self.floors.contains_key(&boat) {
            return Err(Refusal::NotPromised);
        }
        self.admit(boat)
    }

    // A boat that is not on the list comes on it, whatever level was said.
    pub(super) fn admit(&mut self, boat: BoatId) -> Result<(), Refusal>
        ensures { Tries (admitting (book self.old) boat.0) result (book self.old) (book self.new) }
    {
        if self.floors.contains_key(&boat) {
            return Ok(());
        }
        if self.floors.len() >= MOST {
            return Err(Refusal::Full);
        }
        self.floors.insert(boat, Program(1))?;
        Ok(())
    }

    // Hears a promise, keeps the highest, and answers with that.
    pub fn hear(&mut self, boat: BoatId, floor: Program) -> Result<Program, Refusal>
        ensures { Replies floor_number (hearing (book self.old) boat.0 floor.0) result (book self.old) (book self.new) }
    {
        let Some(known) = self.floors.get_mut(&boat) else {
            return Err(Refusal::NotListed);
        };
        let highest = floor.max(*known);
        *known = highest;
        Ok(highest)
    }
}

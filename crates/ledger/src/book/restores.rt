// What a ledger takes back from a file.
ghost use Rattle.std.specs.Prelude.{◌≡◌};
ghost use Rattle.ledger.specs.Ledgers.{book, restoring, levelled};
ghost use Rattle.levels.specs.Verdicts.{Tries};

use super::Ledger;
use levels::numbers::{BoatId, Level, Program};
use levels::refusals::Refusal;

impl Ledger {
    // Takes a boat and its promise as a record of a file has them.
    pub fn restore(&mut self, boat: BoatId, floor: Program) -> Result<(), Refusal>
        ensures { Tries (restoring (book self.old) boat.0 floor.0) result (book self.old) (book self.new) }
    {
        if boat == BoatId::HARBOUR {
            return Err(Refusal::Invalid);
        }
        self.admit(boat)?;
        // it is on the list now, so its promise is heard
        let _ = self.hear(boat, floor);
        Ok(())
    }

    // Takes a level that was said as a record of a file has it: the highest counts.
    pub fn restore_level(&mut self, level: Level)
        ensures { book self.new ≡ levelled (book self.old) level.0 }
    {
        self.said = self.said.max(level);
    }
}

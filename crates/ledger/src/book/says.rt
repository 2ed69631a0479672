// Which levels the harbour may say.
ghost use Rattle.std.specs.Prelude.{◌≡◌};
ghost use Rattle.ledger.specs.Entries.{lacking};
ghost use Rattle.ledger.specs.Ledgers.{book, saying, boat_in};
ghost use Rattle.levels.specs.Verdicts.{Does, Judges};

use super::Ledger;
use levels::numbers::{BoatId, Level};
use levels::refusals::Refusal;

impl Ledger {
    // The first boat of the list that has not promised a level.
    pub fn first_without(&self, level: Level) -> Option<BoatId>
        ensures { boat_in result ≡ lacking level.0 (book self.now).list }
    {
        let mut found = None;
        // a loop with a label, left at the first boat that has not promised (docs/DECISIONS.md, "Forms of code")
        'boats: for (boat, floor) in &self.floors {
            if floor.is_below(level) {
                found = Some(*boat);
                break 'boats;
            }
        }
        found
    }

    // May a level be said? Every boat of the list has to have promised it, and of an empty list nobody has promised anything.
    pub fn may_say(&self, level: Level) -> Result<(), Refusal>
        ensures { Judges (saying (book self.now) level.0) result }
    {
        if level.0 == 0 {
            return Err(Refusal::Invalid);
        }
        if level > Level(1) && self.floors.is_empty() {
            return Err(Refusal::NotPromised);
        }
        if self.first_without(level).is_some() {
            return Err(Refusal::NotPromised);
        }
        Ok(())
    }

    // Says a level that may be said: the highest counts.
    pub fn say(&mut self, level: Level) -> Result<(), Refusal>
        ensures { Does (saying (book self.old) level.0) result (book self.old) (book self.new) }
    {
        self.may_say(level)?;
        self.said = self.said.max(level);
        Ok(())
    }
}

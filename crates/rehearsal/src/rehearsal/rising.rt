// The level rises: which events it takes, and a call that plays them.
ghost use Rattle.std.specs.Prelude.{◌≡◌, ◌+◌, ◌^◌, ◌<◌, ◌≤◌, true, [], ◌∷◌, ◌++◌, length, vec_items};
ghost use Rattle.std.specs.BTreeMap.{btree_map_len};
ghost use Rattle.ledger.specs.Ledgers.{listed};
ghost use Rattle.levels.specs.Standings.{view};
ghost use Rattle.world.specs.declared.events.Event.TheVariants.{BringNotice};
ghost use Rattle.fleet.specs.Fleets.{world};
ghost use Rattle.world.specs.Abstract.{boat_of};
ghost use Rattle.world.specs.Promises.{Promises};
ghost use Rattle.world.specs.Rising.{taken};
ghost use Rattle.world.specs.Calls.{OrMemory, Gives, Planned, PlaysAll, Raised};
ghost use Rattle.world.specs.Rising as spec;

use super::Rehearsal;
use levels::numbers::{BoatId, Level, Program};
use levels::refusals::Refusal;
use levels::standing::Standing;
use std::alloc::Global;
use std::collections::BTreeMap;
use world::events::Event;

// How many boats of a list have not been heard to promise a level.
fn behind(boats: &BTreeMap<BoatId, Program>, level: Level) -> usize
    ensures count { result ≡ spec.behind level.0 (listed boats.now) }
    ensures most { result ≤ btree_map_len boats.now }
{
    boats.values().filter(|floor| floor.is_below(level)).count()
}

// One notice for each boat of a list comes.
fn bring_each(
    events: &mut Vec<Event>,
    boats: &BTreeMap<BoatId, Program>,
    first: usize,
) -> Result<(), Refusal>
    requires { first + btree_map_len boats.now < 2 ^ 64 }
    ensures { OrMemory result (events.new.items ≡ events.old.items ++ spec.bringing (listed boats.now) first) }
{
    let numbers = first..first + boats.len();
    events.extend(numbers.map(|number| Event::BringNotice { number }))?;
    Ok(())
}

impl Rehearsal {
    // The standing of the boat with a number; where there is none, one at its start.
    fn standing_of(&self, boat: BoatId) -> Standing
        ensures { view result ≡ (boat_of (world self.now.fleet) boat.0).standing }
    {
        self.fleet
            .boat(boat)
            .map_or(Standing::first(), |berth| berth.vessel.standing)
    }

    // Does a boat of the list run a program below a level?
    fn outdated(&self, level: Level) -> bool
        ensures { result ≡ spec.outdated (world self.now.fleet) level.0 (world self.now.fleet).harbour.list }
    {
        let boats = self.fleet.harbour().boats();
        boats
            .keys()
            .any(|boat| self.standing_of(*boat).program.is_below(level))
    }

    // A boat promises a level, or tells again that it has.
    fn vouch(&self, boat: BoatId, level: Level) -> Event
        ensures { result ≡ spec.vouch (world self.now.fleet) level.0 boat }
    {
        if self.standing_of(boat).floor.is_below(level) {
            Event::Promise { boat }
        } else {
            Event::Tick { boat }
        }
    }

    // A boat vouches, the harbour hears it, and the boat its answer.
    fn vouch_one(
        &self,
        events: &mut Vec<Event>,
        boat: BoatId,
        level: Level,
        next: usize,
    ) -> Result<(), Refusal>
        requires { next + 2 < 2 ^ 64 }
        ensures { OrMemory result (events.new.items ≡ events.old.items ++ spec.vouch (world self.now.fleet) level.0 boat ∷ BringNotice next ∷ BringNotice (next + 1) ∷ []) }
    {
        events.push(self.vouch(boat, level))?;
        events.push(Event::BringNotice { number: next })?;
        events.push(Event::BringNotice { number: next + 1 })?;
        Ok(())
    }

    // Each boat of the list vouches of which the harbour has heard too little.
    fn vouch_each(&self, events: &mut Vec<Event>, level: Level) -> Result<(), Refusal>
        ensures { OrMemory result (events.new.items ≡ events.old.items ++ spec.vouching (world self.now.fleet) level.0 (world self.now.fleet).harbour.list (length (world self.now.fleet).notices)) }
    {
        let boats = self.fleet.harbour().boats();
        // counted here, since it goes up by two, and only where a boat vouches
        let mut next = self.fleet.notices().len();
        for (boat, floor) in boats {
            if floor.is_below(level) {
                self.vouch_one(events, *boat, level, next)?;
                next += 2;
            }
        }
        Ok(())
    }

    // The events for a level that can rise.
    fn plan(&self, heap: Global, level: Level) -> Result<Vec<Event>, Refusal>
        ensures { Gives vec_items (spec.raising level.0 (world self.now.fleet)) result }
    {
        let boats = self.fleet.harbour().boats();
        let first = self.fleet.notices().len() + 2 * behind(boats, level);
        let mut events = Vec::new(heap);
        self.vouch_each(&mut events, level)?;
        events.push(Event::Announce { level })?;
        bring_each(&mut events, boats, first)?;
        Ok(events)
    }

    // The events after which every boat of the list has a level. All of them must run a program of at least that number.
    pub fn raising(&self, heap: Global, level: Level) -> Result<Vec<Event>, Refusal>
        ensures { Planned vec_items level.0 (world self.now.fleet) result }
    {
        if level.0 == 0 {
            return Err(Refusal::Invalid);
        }
        if level > Level(1) && self.fleet.harbour().boats().is_empty() {
            return Err(Refusal::NotPromised);
        }
        if self.outdated(level) {
            return Err(Refusal::NotPromised);
        }
        self.plan(heap, level)
    }

    // Plays events, the oldest first, none of which is refused by a rule.
    fn play_all(&mut self, events: &[Event]) -> Result<(), Refusal>
        requires { taken (world self.old.fleet) events.now ≡ true }
        ensures { PlaysAll events.now (world self.old.fleet) (world self.new.fleet) result }
    {
        for event in events {
            self.play(*event)?;
        }
        Ok(())
    }

    // Raises the level of every boat of the list. A refusal changes nothing, and want of memory leaves what the first of the events have made.
    pub fn raise(&mut self, heap: Global, level: Level) -> Result<(), Refusal>
        ensures raised { Raised level.0 (world self.old.fleet) (world self.new.fleet) result }
        ensures promises { ∥ Promises (world self.new.fleet) ∥₁ }
    {
        let events = self.raising(heap, level)?;
        self.play_all(events.as_slice())?;
        Ok(())
    }
}

// What a boat does with the words that it keeps.
ghost use Rattle.std.specs.Prelude.{◌≡◌, ◌≤◌, true, false, length, OnErr};
ghost use Rattle.std.specs.Global.{Box};
ghost use Rattle.std.specs.Map.Iter.{ShowsInOrder, ShowsInReverse, deref};
ghost use Rattle.logbooks.specs.declared.log.Ship.{Ship};
ghost use Rattle.forms.specs.Said.{said};
ghost use Rattle.levels.specs.Verdicts.{Tries};
ghost use Rattle.logbooks.specs.Logs.{log, empty, kept_all, crowded, putting, taking, restoring, fallen, keeps};
ghost use Rattle.std.specs.BTreeMap.{values, keys};
ghost use Rattle.logbooks.specs.Ships.{Alike, slots_of, numbers_of, bare_all, covered, covers};
ghost use Rattle.logbooks.specs.Slots.{kept};

use super::{FORMS, Logbook, Ship};
use crate::slot::Slot;
use forms::word::Spoken;
use levels::numbers::{BoatId, FormNumber};
use levels::refusals::Refusal;
use std::alloc::Global;
use std::collections::btree_map::Values;
use std::collections::{BTreeMap, BTreeSet};

// How many ships there is place for.
const MOST: usize = 4096;

// The newer forms are forgotten, all of which are of ships with the given numbers.
fn forget(ships: &mut BTreeMap<u32, Box<Ship>>, numbers: &BTreeSet<u32>)
    requires keyed { numbers_of (values ships.old) ≡ keys ships.old }
    requires noted { covers numbers.now.keys (values ships.old) ≡ true }
    ensures { ships.new.entries ≡ bare_all ships.old.entries }
{
    for number in numbers {
        if let Some(ship) = ships.get_mut(number) {
            ship.slot.newer = None;
        }
    }
}

impl Logbook {
    // Nothing is kept yet.
    pub fn new(heap: Global) -> Logbook
        ensures { log result ≡ empty }
    {
        Logbook {
            heap,
            ships: BTreeMap::new(heap),
            newer: BTreeSet::new(heap),
            in_form: [0; FORMS],
        }
    }

    // The last number that was taken from a boat about a ship.
    pub fn last(&self, from: BoatId, ship: u32) -> Option<u32>
        ensures { result ≡ (log self.now).lasts from.0 ship }
    {
        self.ships.get(&ship)?.last(from)
    }

    // The ships, by rising numbers.
    pub fn ships(&self) -> Values<'_, u32, Box<Ship>>
        ensures slots { kept_all (slots_of result) ≡ (log self.now).slots }
        ensures few { length result ≤ 4096 }
        ensures runs { ShowsInOrder (deref {X = Box Ship}) }
        ensures runs_back { ShowsInReverse (deref {X = Box Ship}) }
    {
        self.ships.values()
    }

    // Is a word kept in a form?
    pub fn keeps(&self, form: FormNumber) -> bool
        ensures { result ≡ keeps (log self.now) form.0 }
    {
        self.in_form
            .get(usize::from(form.0))
            .is_some_and(|slots| *slots > 0)
    }

    // A slot is written, and a last number noted, of a ship for which there is place, and that is among `newer` if it has to be.
    fn enter(&mut self, slot: Slot, last: u32) -> Result<(), Refusal>
        requires room { crowded (log self.old) slot.ship ≡ false }
        requires noted { covered self.old.newer.keys slot ≡ true }
        ensures done { Tries (putting (log self.old) (kept slot) last) result (log self.old) (log self.new) }
        ensures newer { self.new.newer ≡ self.old.newer }
    {
        let form = usize::from(slot.word.form().0);
        match self.ships.get_mut(&slot.ship) {
            Some(ship) => {
                let before = usize::from(ship.slot.word.form().0);
                ship.note(slot, last)?;
                self.in_form[before] -= 1;
                self.in_form[form] += 1;
                Ok(())
            }
            None => {
                let ship = Box::new(self.heap, Ship::new(self.heap, slot, last))?;
                self.ships.insert(slot.ship, ship)?;
                self.in_form[form] += 1;
                Ok(())
            }
        }
    }

    // A slot is written, and a last number noted. There is place for so many ships. A number that comes among `newer` for it goes again where there is no memory for the slot.
    fn put(&mut self, slot: Slot, last: u32) -> Result<(), Refusal>
        ensures done { Tries (putting (log self.old) (kept slot) last) result (log self.old) (log self.new) }
        ensures newer { OnErr result (Alike self.old.newer.keys self.new.newer.keys) }
    {
        if self.ships.len() >= MOST && !self.ships.contains_key(&slot.ship) {
            return Err(Refusal::Full);
        }
        let added = slot.newer.is_some() && self.newer.insert(slot.ship)?;
        let entered = self.enter(slot, last);
        if added && entered.is_err() {
            self.newer.remove(&slot.ship);
        }
        entered
    }

    // Takes a word that came, and keeps it in a form of at most `most`. An older number is passed over; there is place for so many ships.
    pub fn take(
        &mut self,
        from: BoatId,
        number: u32,
        came: Spoken,
        most: FormNumber,
    ) -> Result<(), Refusal>
        ensures { Tries (taking (log self.old) from.0 number (said came) most.0) result (log self.old) (log self.new) }
    {
        if self
            .last(from, came.ship())
            .is_some_and(|last| number <= last)
        {
            return Err(Refusal::OlderNumber);
        }
        self.put(Slot::new(from, number, came, most), number)
    }

    // Takes a word as a record of a file has it, whatever its number: the last record of a ship holds, and of the numbers the highest.
    pub fn restore(&mut self, from: BoatId, number: u32, word: Spoken) -> Result<(), Refusal>
        ensures { Tries (restoring (log self.old) from.0 number (said word)) result (log self.old) (log self.new) }
    {
        let ship = word.ship();
        let last = self
            .last(from, ship)
            .map_or(number, |last| number.max(last));
        let slot = Slot {
            ship,
            from,
            number,
            word,
            newer: None,
        };
        self.put(slot, last)
    }

    // The power goes: nothing newer than what is kept is known any more.
    pub fn fall(&mut self)
        ensures { log self.new ≡ fallen (log self.old) }
    {
        forget(&mut self.ships, &self.newer);
        self.newer.clear();
    }
}

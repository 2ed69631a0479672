// The harbour's ledger.
ghost use Rattle.std.specs.Prelude.{◌≡◌, ◌≤◌, true, map};
ghost use Rattle.std.specs.BTreeMap.{btree_map_len};
ghost use Rattle.ledger.specs.declared.book.TheConstants.{MOST};
ghost use Rattle.ledger.specs.Entries.{entry_of, ascending};

use levels::numbers::{BoatId, Level, Program};
use std::alloc::Global;
use std::collections::BTreeMap;

mod calls;
mod restores;
mod says;

// How many boats the list takes.
const MOST: usize = 4096;

// The list: of each boat, by rising numbers, the highest floor that the harbour has heard it promise; and the highest level that was said.
#[derive(Drop)]
pub struct Ledger {
    floors: BTreeMap<BoatId, Program>,
    said: Level,
    ghost sorted: { ascending (map entry_of floors.entries) ≡ true },
    ghost few: { btree_map_len floors ≤ MOST },
    ghost begun: { 1 ≤ said.0 },
}

impl Ledger {
    ghost use Rattle.ledger.specs.Ledgers.{book, blank, listed};

    // A ledger with nobody on its list, and level 1 said.
    pub fn new(heap: Global) -> Ledger
        ensures { book result ≡ blank }
    {
        Ledger {
            floors: BTreeMap::new(heap),
            said: Level(1),
        }
    }

    // The highest level that was said.
    pub fn said(&self) -> Level
        ensures { result.0 ≡ (book self.now).said }
    {
        self.said
    }

    // The boats of the list, by rising numbers, each with its floor.
    pub fn boats(&self) -> &BTreeMap<BoatId, Program>
        ensures list { listed result.now ≡ (book self.now).list }
        ensures few { btree_map_len result.now ≤ MOST }
    {
        &self.floors
    }
}

// All the words that a boat keeps.
ghost use Rattle.std.specs.Prelude.{◌≡◌, ◌≤◌, true};
ghost use Rattle.std.specs.BTreeMap.{keys, values, btree_map_len};
ghost use Rattle.logbooks.specs.Ships.{slots_of, numbers_of, rising, covers, in_forms};

use crate::slot::Slot;
use levels::numbers::BoatId;
use levels::programs::program3;
use std::alloc::Global;
use std::collections::{BTreeMap, BTreeSet};

mod ships;
mod takes;

// How many forms any program writes, with form 0, which there is not.
const FORMS: usize = program3::GREATEST_FORM as usize + 1;

// One ship: its slot, the last number that was taken about it from the boat that the slot is from, and from each other boat. Most ships are spoken of by one boat, so the others' map is mostly empty.
#[derive(Drop)]
pub struct Ship {
    pub slot: Slot,
    last: u32,
    others: BTreeMap<BoatId, u32>,
}

// The ships by their numbers, at most 4,096. Each is in a box of its own, since the nodes of a map are half empty. A ship of which a newer form is known is among `newer`, so that a fall need not look at the others. How many slots keep their word in each form is counted, by the form's number, so that no walk over them has to tell whether there is one.
#[derive(Drop)]
pub struct Logbook {
    heap: Global,
    ships: BTreeMap<u32, Box<Ship>>,
    newer: BTreeSet<u32>,
    in_form: [u16; FORMS],
    ghost keyed: { numbers_of (values ships) ≡ keys ships },
    ghost sorted: { rising (slots_of (values ships)) ≡ true },
    ghost noted: { covers newer.keys (values ships) ≡ true },
    ghost counted: { in_form ≡ in_forms (values ships) },
    ghost few: { btree_map_len ships ≤ 4096 },
}

// What is done to a list, and what a power cut leaves of it.
ghost use Rattle.std.specs.Prelude.{◌≡◌, ◌+◌, ◌<◌, ◌≤◌, [], ◌∷◌, ◌++◌, cond, is_ok, length, take, OnOk, OnErr};
ghost use Rattle.synced.specs.Parts.{safe, pending, Holds, room};

use crate::Synced;
use std::alloc::{AllocError, Global};

impl<T> Synced<T> {
    // Nothing yet.
    pub fn new(heap: Global) -> Synced<T>
        ensures { Holds result [] [] }
    {
        Synced {
            items: Vec::new(heap),
            synced: 0,
        }
    }

    // All items, the safe ones first.
    pub fn items(&self) -> &[T]
        ensures { result.now ≡ safe self.now ++ pending self.now }
    {
        self.items.as_slice()
    }

    // The safe ones.
    pub fn safe(&self) -> &[T]
        ensures { result.now ≡ safe self.now }
    {
        &self.items.as_slice()[..self.synced]
    }

    // Room for so many items more.
    pub fn reserve(&mut self, more: usize) -> Result<(), AllocError>
        ensures same { Holds self.new (safe self.old) (pending self.old) }
        ensures ok { OnOk result (more ≤ room self.new) }
        ensures err { OnErr result (room self.old < more) }
    {
        self.items.reserve(more)
    }

    // One item more, for which there is room.
    pub fn push_reserved(&mut self, item: T)
        requires { 1 ≤ room self.old }
        ensures parts { Holds self.new (safe self.old) (pending self.old ++ item ∷ []) }
        ensures room { room self.old ≡ 1 + room self.new }
    {
        self.items.push_reserved(item);
    }

    // All is synced.
    pub fn sync(&mut self)
        ensures parts { Holds self.new (safe self.old ++ pending self.old) [] }
        ensures room { room self.new ≡ room self.old }
    {
        self.synced = self.items.len();
    }
}

impl<T: Copy> Synced<T> {
    // Items more, all of them or none.
    pub fn extend_from_slice(&mut self, more: &[T]) -> Result<(), AllocError>
        ensures parts { Holds self.new (safe self.old) (cond (is_ok result) (pending self.old ++ more.now) (pending self.old)) }
        ensures err { OnErr result (room self.old < length more.now) }
    {
        self.items.extend_from_slice(more)
    }
}

impl<T: Drop> Synced<T> {
    // The power is cut: of what is not synced the oldest so many are left.
    pub fn cut(&mut self, left: usize)
        ensures { Holds self.new (safe self.old) (take left (pending self.old)) }
    {
        if left < self.items.len() - self.synced {
            self.items.truncate(self.synced + left);
        }
    }
}

// What became of the messages of a sort.
use super::Fate;
use std::alloc::{AllocError, Global};

// So many messages have their fates, the oldest first. The list goes as far as the last of them that did not come at once: those behind it did, and need no memory.
#[derive(Drop)]
pub struct Fates {
    told: usize,
    list: Vec<Fate>,
}

impl Fates {
    // No message has a fate.
    pub(super) fn none(heap: Global) -> Fates {
        Fates {
            told: 0,
            list: Vec::new(heap),
        }
    }

    // How many messages have a fate.
    pub(super) fn told(&self) -> usize {
        self.told
    }

    // The fate of the message at a place, if it has one.
    pub(super) fn get(&self, place: usize) -> Option<Fate> {
        (place < self.told).then_some(self.list.get(place).copied().unwrap_or(Fate::Comes))
    }

    // The next message has a fate.
    pub(super) fn note(&mut self, fate: Fate) -> Result<(), AllocError> {
        match fate {
            Fate::Comes => {}
            Fate::Lost | Fate::Late => {
                self.list.resize(self.told, Fate::Comes)?;
                self.list.push(fate)?;
            }
        }
        self.told = self.told.saturating_add(1);
        Ok(())
    }
}

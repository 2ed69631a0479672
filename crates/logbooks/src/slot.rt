// One ship's place among the words that are kept.
ghost use Rattle.std.specs.Prelude.{◌≡◌};
ghost use Rattle.logbooks.specs.Slots.{kept, keeping, shown_of};
ghost use Rattle.forms.specs.Said.{said};

use forms::word::Spoken;
use levels::numbers::{BoatId, FormNumber};

// The last word of a ship, who said it and with which number. It is kept in a form that may be written; where it came in a newer one, that is there too, until the power goes.
#[derive(Clone, Copy)]
pub struct Slot {
    pub ship: u32,
    pub from: BoatId,
    pub number: u32,
    pub word: Spoken,
    pub newer: Option<Spoken>,
}

impl Slot {
    // A word that came, put into a form of at most `most` to be kept.
    pub fn new(from: BoatId, number: u32, came: Spoken, most: FormNumber) -> Slot
        ensures { kept result ≡ keeping from.0 number (said came) most.0 }
    {
        let form = came.form();
        Slot {
            ship: came.ship(),
            from,
            number,
            word: came.read().put(form.min(most)),
            newer: (form > most).then_some(came),
        }
    }

    // The word as it is shown: as it came, as long as that is known.
    pub fn shown(&self) -> Spoken
        ensures { said result ≡ shown_of (kept self.now) }
    {
        // One of two words, each a plain value (docs/DECISIONS.md, "Forms of code").
        match self.newer {
            Some(newer) => newer,
            None => self.word,
        }
    }
}

// One ship's slot is written.
pub fn write(slot: &mut Slot, new: Slot)
    ensures { kept slot.new ≡ kept new }
{
    *slot = new;
}

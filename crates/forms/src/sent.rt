// A word that was sent.
use crate::word::{Spoken, Word};
use levels::numbers::BoatId;

// A word of one boat to another, as it went out: numbered, and in some form. Beside it stands the word that was given to be said, which no station knows.
#[derive(Clone, Copy)]
pub struct Sent {
    pub from: BoatId,
    pub to: BoatId,
    pub number: u32,
    pub given: Word,
    pub spoken: Spoken,
}

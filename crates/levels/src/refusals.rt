// Why something is not done. Whatever is refused changes nothing.
ghost use Rattle.std.specs.Prelude.{◌≡◌};
ghost use Rattle.levels.specs.declared.refusals.Refusal.TheVariants.{NoMemory};
ghost use Rattle.levels.specs.Verdicts.{number_of, verdict, passes};

#[derive(Clone, Copy, PartialEq, Eq, Debug)]
pub enum Refusal {
    // 1: cut short, too long, of an unknown kind, or in a form that the program does not read
    Malformed,
    // 2: a number that is not above the last one taken
    OlderNumber,
    // 3: a program below the floor
    BelowFloor,
    // 4: a level that not all of the list have promised
    NotPromised,
    // 5: a boat that is not on the list
    NotListed,
    // 6: no place for one more
    Full,
    // without a number: what was asked makes no sense, as a boat that there is not, or a renewal to an older program
    Invalid,
    // without a number: want of memory
    NoMemory,
}

impl Refusal {
    // The number that a refusal is known by on the air, if it has one.
    pub fn number(self) -> Option<u8>
        ensures { result ≡ number_of (verdict self) }
    {
        match self {
            Refusal::Malformed => Some(1),
            Refusal::OlderNumber => Some(2),
            Refusal::BelowFloor => Some(3),
            Refusal::NotPromised => Some(4),
            Refusal::NotListed => Some(5),
            Refusal::Full => Some(6),
            Refusal::Invalid => None,
            Refusal::NoMemory => None,
        }
    }

    // Is a message with this fault passed over, where with any other it is turned away?
    pub fn passes_over(self) -> bool
        ensures { result ≡ passes (verdict self) }
    {
        matches!(self, Refusal::OlderNumber | Refusal::NotListed)
    }
}

impl<T: Drop> From<std::alloc::AllocFailed<T>> for Refusal {
    ghost from_gives = { λ _ r. r ≡ NoMemory };

    fn from(_e: std::alloc::AllocFailed<T>) -> Refusal {
        Refusal::NoMemory
    }
}

impl From<std::alloc::AllocError> for Refusal {
    ghost from_gives = { λ _ r. r ≡ NoMemory };

    fn from(_e: std::alloc::AllocError) -> Refusal {
        Refusal::NoMemory
    }
}

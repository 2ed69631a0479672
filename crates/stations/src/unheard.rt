// Why a message is not taken: an error with its cause. Whatever is not taken changes nothing.
ghost use Rattle.std.specs.Prelude.{◌≡◌};
ghost use Rattle.levels.specs.declared.refusals.Refusal.TheVariants.{NoMemory};
ghost use Rattle.levels.specs.Verdicts.{number_of};
ghost use Rattle.stations.specs.declared.unheard.Unheard.TheVariants.{Refused};
ghost use Rattle.stations.specs.Unheards.{turned, passed};

use levels::refusals::Refusal;

#[derive(Clone, Copy, PartialEq, Eq, Debug)]
pub enum Unheard {
    // 0: it is for another station
    Elsewhere,
    // it is for this one, and refused
    Refused(Refusal),
}

impl Unheard {
    // The number that is said of it, if it has one.
    pub fn number(self) -> Option<u8>
        ensures { result ≡ number_of (turned self) }
    {
        match self {
            Unheard::Elsewhere => Some(0),
            Unheard::Refused(refusal) => refusal.number(),
        }
    }

    // Is the message passed over, where with any other fault it is turned away?
    pub fn passes_over(self) -> bool
        ensures { result ≡ passed self }
    {
        match self {
            Unheard::Elsewhere => true,
            Unheard::Refused(refusal) => refusal.passes_over(),
        }
    }
}

impl From<Refusal> for Unheard {
    ghost from_gives = { λ e r. r ≡ Refused e };

    fn from(refusal: Refusal) -> Unheard {
        Unheard::Refused(refusal)
    }
}

impl From<std::alloc::AllocError> for Unheard {
    ghost from_gives = { λ _ r. r ≡ Refused NoMemory };

    fn from(_e: std::alloc::AllocError) -> Unheard {
        Unheard::Refused(Refusal::NoMemory)
    }
}

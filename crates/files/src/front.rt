// What no record begins with.
ghost use Rattle.std.specs.Prelude.{◌≡◌};
ghost use Rattle.levels.specs.declared.refusals.Refusal.TheVariants.{Malformed};

use levels::refusals::Refusal;

#[derive(Clone, Copy, PartialEq, Eq, Debug)]
pub struct Wrong;

impl From<Wrong> for Refusal {
    ghost from_gives = { λ _ r. r ≡ Malformed };

    fn from(_e: Wrong) -> Refusal {
        Refusal::Malformed
    }
}

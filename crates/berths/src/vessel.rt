// A boat with its file.
ghost use Rattle.std.specs.Option.{ForSome};
ghost use Rattle.std.specs.Prelude.{◌≡◌};
ghost use Rattle.boats.specs.Views.{number_of};

use crate::berth::Berth;
use boats::boat::Boat;
use levels::numbers::{BoatId, Program};

mod sails;

// Its number, the program that runs or ran last, and its file with what it knows while it runs.
#[derive(Drop)]
pub struct Vessel {
    pub number: BoatId,
    pub program: Program,
    pub berth: Berth<Boat>,
    ghost own: { ForSome berth.station (λ b. number_of b ≡ number.0) },
}

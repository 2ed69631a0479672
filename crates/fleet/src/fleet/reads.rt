// Looking at a fleet.
ghost use Rattle.std.specs.Prelude.{◌≡◌};
ghost use Rattle.std.specs.Option.{option_copied};
ghost use Rattle.ledger.specs.Ledgers.{book};
ghost use Rattle.fleet.specs.Fleets.{world, states, all_logs, all_sent, Found};

use super::{Berth, Fleet};
use forms::sent::Sent;
use ledger::book::Ledger;
use levels::numbers::BoatId;
use world::messages::Notice;

impl Fleet {
    // The boats: boat number i is at place i - 1.
    pub fn boats(&self) -> &[Berth]
        ensures states { states result.now ≡ (world self.now).boats }
        ensures logs { all_logs result.now ≡ (world self.now).logs }
    {
        self.boats.as_slice()
    }

    // The boat with a number, if there is one.
    pub fn boat(&self, boat: BoatId) -> Option<&Berth>
        ensures { Found (world self.now) boat.0 (option_copied result) }
    {
        self.boats.get(boat.place()?)
    }

    // The harbour's ledger.
    pub fn harbour(&self) -> &Ledger
        ensures { book result.now ≡ (world self.now).harbour }
    {
        &self.harbour
    }

    // Every word that was ever sent, the oldest first.
    pub fn words(&self) -> &[Sent]
        ensures { all_sent result.now ≡ (world self.now).words }
    {
        self.words.as_slice()
    }

    // Every notice that was ever sent, the oldest first.
    pub fn notices(&self) -> &[Notice]
        ensures { result.now ≡ (world self.now).notices }
    {
        self.notices.as_slice()
    }
}

// What a boat knows.
ghost use Rattle.std.specs.Prelude.{◌≡◌};
ghost use Rattle.levels.specs.Standings.{view};
ghost use Rattle.logbooks.specs.Logs as logs;
ghost use Rattle.boats.specs.Views.{memory, number_of};

use super::Boat;
use levels::numbers::BoatId;
use levels::standing::Standing;
use logbooks::log::Logbook;

impl Boat {
    // Its number.
    pub fn number(&self) -> BoatId
        ensures { result.0 ≡ number_of self.now }
    {
        self.number
    }

    // Its program, floor and level.
    pub fn standing(&self) -> Standing
        ensures { view result ≡ (memory self.now).standing }
    {
        self.memory.standing
    }

    // Was its promise answered?
    pub fn answered(&self) -> bool
        ensures { result ≡ (memory self.now).answered }
    {
        self.memory.answered
    }

    // The numbers of its own words are used up to this one.
    pub fn used(&self) -> u32
        ensures { result ≡ (memory self.now).used }
    {
        self.memory.used
    }

    // The words that it keeps.
    pub fn log(&self) -> &Logbook
        ensures { logs.log result.now ≡ (memory self.now).log }
    {
        &self.memory.log
    }
}

// What a boat shows.
use super::Player;
use crate::answers::{Output, Reason, Refused};
use forms::shown::show;
use levels::numbers::BoatId;
use script::wording::Line;
use std::io;
use std::io::Write;

impl Player {
    // Whether there is a boat that can show something.
    pub(super) fn looked_at(&self, boat: BoatId) -> Result<(), Refused> {
        self.standing(boat).ok_or(Reason::NoBoat(boat))?;
        Ok(())
    }

    // A line for each ship of which the boat has taken a word.
    pub(super) fn show(&self, boat: BoatId, out: &mut Output) -> io::Result<()> {
        let Some(berth) = self.fleet().boat(boat) else {
            return Ok(());
        };
        for ship in berth.log.ships() {
            let slot = &ship.slot;
            let line = Line {
                shown: show(berth.vessel.standing.program, slot.shown()),
                from: slot.from,
                number: slot.number,
            };
            writeln!(out, "  {line}")?;
        }
        Ok(())
    }
}

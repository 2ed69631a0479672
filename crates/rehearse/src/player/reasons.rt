// Why a step was refused. What is refused has changed nothing, so all is as it was before.
use super::Player;
use crate::answers::{Reason, Refused};
use levels::numbers::BoatId;
use levels::refusals::Refusal;
use script::faults::Fault;
use world::events::Event;

impl Player {
    // Why an event that was refused as senseless makes no sense.
    fn sense(&self, event: Event) -> Reason {
        match event {
            Event::Enlist { boat }
            | Event::Restart { boat }
            | Event::Promise { boat }
            | Event::Tick { boat } => Reason::NoBoat(boat),
            Event::Renew { boat, .. } => self.unless_there(boat, Fault::OlderProgram.into()),
            Event::GoBack { boat, .. } => self.unless_there(boat, Fault::NotOlder.into()),
            Event::Say { from, to, .. } => {
                self.unless_there(from, self.unless_there(to, Fault::ToItself.into()))
            }
            Event::Announce { .. } => Fault::NoSense.into(),
            Event::BringWord { .. } | Event::BringNotice { .. } => Fault::NeverSent.into(),
        }
    }

    // That there is no such boat, or where there is one, another reason.
    fn unless_there(&self, boat: BoatId, other: Reason) -> Reason {
        if self.standing(boat).is_none() {
            Reason::NoBoat(boat)
        } else {
            other
        }
    }

    // Below which floor an event would go.
    fn floor_of(&self, event: Event) -> Reason {
        if let Event::GoBack { boat, .. } = event
            && let Some(standing) = self.standing(boat)
        {
            return Reason::BelowFloor(standing.floor);
        }
        Fault::BelowFloor.into()
    }

    // Which boat has not promised the level of an event.
    fn lacking(&self, event: Event) -> Reason {
        if let Event::Announce { level } = event
            && let Some(boat) = self.fleet().harbour().first_without(level)
        {
            return Reason::NotPromised(boat);
        }
        Fault::NotPromised.into()
    }

    // Why an event was refused: a match on data, a reason for each refusal.
    fn reason(&self, event: Event, refusal: Refusal) -> Reason {
        match refusal {
            Refusal::Malformed => Fault::NotReadable.into(),
            Refusal::OlderNumber => Fault::OlderNumber.into(),
            Refusal::BelowFloor => self.floor_of(event),
            Refusal::NotPromised => self.lacking(event),
            Refusal::NotListed => Fault::NotListed.into(),
            Refusal::Full => Fault::Full.into(),
            Refusal::Invalid => self.sense(event),
            Refusal::NoMemory => Fault::Memory.into(),
        }
    }

    // An event that was refused, and why.
    pub(super) fn refused(&self, event: Event, refusal: Refusal) -> Refused {
        Refused {
            refusal,
            reason: self.reason(event, refusal),
        }
    }
}

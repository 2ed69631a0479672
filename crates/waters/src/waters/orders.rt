// What the boats do when they are told to.
ghost use Rattle.std.specs.Prelude.{◌≡◌};
ghost use Rattle.std.specs.Fn.{FnOnceReturnsAtMut};
ghost use Rattle.messages.specs.Messages.{letter};
ghost use Rattle.berths.specs.Vessels.{call_sign};
ghost use Rattle.waters.specs.Waters.{world, Plays, Obeys, ordering, Hear, Promise, Tick, Rest, Open};

use super::Waters;
use berths::vessel::Vessel;
use levels::numbers::{BoatId, Program};
use levels::refusals::Refusal;
use messages::Message;
use runs::events::Fate;
use stations::unheard::Unheard;

impl Waters {
    // A boat does something, and what it sends is a notice.
    fn at_boat<F: FnOnce(&mut Vessel) -> Result<Option<Message>, Unheard>>(
        &mut self,
        boat: BoatId,
        act: F,
    ) -> Result<(), Unheard>
        requires callable { F.IsAlwaysCallable act }
        requires same { (v : _) (r : _) (u : _) → FnOnceReturnsAtMut F.FnOnce act v r u → call_sign u ≡ call_sign v }
        ensures { Obeys (FnOnceReturnsAtMut F.FnOnce act) boat.0 result (world self.old) (world self.new) }
    {
        let Some(place) = boat.place() else {
            return Err(Unheard::Refused(Refusal::Invalid));
        };
        let Some(vessel) = self.vessels.get_mut(place) else {
            return Err(Unheard::Refused(Refusal::Invalid));
        };
        self.notices.reserve(1)?;
        if let Some(message) = act(vessel)? {
            self.notices.push_reserved(message);
        }
        Ok(())
    }

    // A message comes to a boat.
    pub(super) fn hear(&mut self, boat: BoatId, message: Message, fate: Fate) -> Result<(), Unheard>
        ensures { Plays (ordering (world self.old) boat.0 (Hear message) fate) result (world self.old) (world self.new) }
    {
        self.at_boat(boat, |vessel| vessel.hear(message, fate))
    }

    // A boat promises the program that it runs.
    pub(super) fn promise(&mut self, boat: BoatId, fate: Fate) -> Result<(), Unheard>
        ensures { Plays (ordering (world self.old) boat.0 Promise fate) result (world self.old) (world self.new) }
    {
        self.at_boat(boat, |vessel| Ok(vessel.promise(fate)?))
    }

    // A boat tells its promise again.
    pub(super) fn tick(&mut self, boat: BoatId, fate: Fate) -> Result<(), Unheard>
        ensures { Plays (ordering (world self.old) boat.0 Tick fate) result (world self.old) (world self.new) }
    {
        self.at_boat(boat, |vessel| Ok(vessel.tick(fate)?))
    }

    // A boat does nothing.
    pub(super) fn rest(&mut self, boat: BoatId, fate: Fate) -> Result<(), Unheard>
        ensures { Plays (ordering (world self.old) boat.0 Rest fate) result (world self.old) (world self.new) }
    {
        self.at_boat(boat, |vessel| Ok(vessel.rest(fate)?))
    }

    // A boat begins with a program.
    pub(super) fn open(&mut self, boat: BoatId, program: Program, fate: Fate) -> Result<(), Unheard>
        ensures { Plays (ordering (world self.old) boat.0 (Open program) fate) result (world self.old) (world self.new) }
    {
        let heap = self.heap;
        self.at_boat(boat, |vessel| Ok(vessel.open(heap, program, fate)?))
    }
}

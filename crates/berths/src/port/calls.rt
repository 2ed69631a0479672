// What the harbour does with each input, on its file too, and how far it comes. What is refused changes nothing.
ghost use Rattle.std.specs.Prelude.{◌≡◌, map, Ok};
ghost use Rattle.messages.specs.Messages.{letter};
ghost use Rattle.stations.specs.Deeds.{nothing, option};
ghost use Rattle.stations.specs.Harbours as spec;
ghost use Rattle.runs.specs.Disks.{file};
ghost use Rattle.berths.specs.Calls.{Attempts, Heeds};
ghost use Rattle.berths.specs.Vessels.{afloat};
ghost use Rattle.berths.specs.Ports.{port_of, called, begun, Built};

use super::Port;
use crate::berth::Berth;
use crate::journal::Journal;
use harbours::harbour::Harbour;
use levels::numbers::{BoatId, Level};
use levels::refusals::Refusal;
use messages::Message;
use runs::events::Fate;
use stations::step::Step;
use stations::unheard::Unheard;
use std::alloc::Global;

impl Port {
    // A new harbour, with nobody on its list.
    pub fn new(heap: Global) -> Result<Port, Refusal>
        ensures { Built result }
    {
        let journal = Journal::new(heap);
        let harbour = Harbour::open(heap, journal.file())?;
        Ok(Port {
            berth: Berth {
                journal,
                station: Some(harbour),
            },
        })
    }

    // A message comes.
    pub fn hear(&mut self, message: Message, fate: Fate) -> Result<Option<Message>, Unheard>
        ensures { Heeds (option letter) (afloat (port_of self.old).running (λ x. called fate (port_of self.old) (spec.hearing x (letter message)))) result (port_of self.old) (port_of self.new) }
    {
        self.berth.act(fate, |harbour| harbour.hear(message))
    }

    // A boat is put on the list.
    pub fn list(&mut self, boat: BoatId, fate: Fate) -> Result<Option<Message>, Refusal>
        ensures { Attempts (option letter) (afloat (port_of self.old).running (λ x. called fate (port_of self.old) (spec.listing x boat.0))) result (port_of self.old) (port_of self.new) }
    {
        self.berth.act(fate, |harbour| harbour.list(boat))
    }

    // A level is said to each boat of the list.
    pub fn level(&mut self, heap: Global, level: Level, fate: Fate) -> Result<Vec<Message>, Refusal>
        ensures { Attempts (λ v. map letter v.items) (afloat (port_of self.old).running (λ x. called fate (port_of self.old) (spec.announcing x level.0))) result (port_of self.old) (port_of self.new) }
    {
        self.berth.act(fate, |harbour| harbour.level(heap, level))
    }

    // Nothing is done; its fate alone counts.
    pub fn rest(&mut self, fate: Fate) -> Result<Option<Message>, Refusal>
        ensures { Attempts (option letter) (afloat (port_of self.old).running (λ x. called fate (port_of self.old) (Ok (nothing, x)))) result (port_of self.old) (port_of self.new) }
    {
        self.berth.act(fate, |_| Ok(<Step>::default()))
    }

    // Its program begins over its file; what ran ends.
    pub fn open(&mut self, heap: Global, fate: Fate) -> Result<Option<Message>, Refusal>
        ensures { Attempts (option letter) (begun fate (port_of self.old) (spec.opening (file (port_of self.old).disk))) result (port_of self.old) (port_of self.new) }
    {
        self.berth.begin(
            fate,
            |file| Ok((Harbour::open(heap, file)?, <Step>::default())),
        )
    }
}

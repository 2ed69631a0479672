// What a boat does with each input, on its file too, and how far it comes. What is refused changes nothing.
ghost use Rattle.std.specs.Prelude.{Ok};
ghost use Rattle.forms.specs.Said.{said};
ghost use Rattle.messages.specs.Messages.{letter};
ghost use Rattle.stations.specs.Boats as spec;
ghost use Rattle.stations.specs.Deeds.{nothing, option};
ghost use Rattle.runs.specs.Disks.{file};
ghost use Rattle.berths.specs.Calls.{Attempts, Heeds};
ghost use Rattle.berths.specs.Vessels.{vessel_of, call_sign, Sails, afloat, stepped, begun, Built};

use super::Vessel;
use crate::berth::Berth;
use crate::journal::Journal;
use boats::boat::Boat;
use forms::word::Spoken;
use levels::numbers::{BoatId, Program};
use levels::refusals::Refusal;
use messages::Message;
use runs::events::Fate;
use stations::step::Step;
use stations::unheard::Unheard;
use std::alloc::Global;

impl Vessel {
    // A new boat: it runs program 1 over an empty file. There is no boat 0.
    pub fn new(heap: Global, number: BoatId) -> Result<Vessel, Refusal>
        ensures { Built number.0 result }
    {
        let journal = Journal::new(heap);
        let program = Program(1);
        let (boat, _) = Boat::open(heap, number, program, journal.file())?;
        Ok(Vessel {
            number,
            program,
            berth: Berth {
                journal,
                station: Some(boat),
            },
        })
    }

    // A message comes.
    pub fn hear(&mut self, message: Message, fate: Fate) -> Result<Option<Message>, Unheard>
        ensures { Sails (Heeds (option letter) (afloat (vessel_of self.old).running (λ m. stepped fate (vessel_of self.old) (spec.hearing (call_sign self.old) m (letter message)))) result) self.old self.new }
    {
        self.berth.act(fate, |boat| boat.hear(message))
    }

    // It promises not to go below the program that it runs.
    pub fn promise(&mut self, fate: Fate) -> Result<Option<Message>, Refusal>
        ensures { Sails (Attempts (option letter) (afloat (vessel_of self.old).running (λ m. stepped fate (vessel_of self.old) (Ok (spec.promising (call_sign self.old) m)))) result) self.old self.new }
    {
        self.berth.act(fate, |boat| Ok(boat.promise()))
    }

    // It tells its promise again, if that is not answered yet.
    pub fn tick(&mut self, fate: Fate) -> Result<Option<Message>, Refusal>
        ensures { Sails (Attempts (option letter) (afloat (vessel_of self.old).running (λ m. stepped fate (vessel_of self.old) (Ok (spec.ticking (call_sign self.old) m, m)))) result) self.old self.new }
    {
        self.berth.act(fate, |boat| Ok(boat.tick()))
    }

    // Nothing is done; its fate alone counts.
    pub fn rest(&mut self, fate: Fate) -> Result<Option<Message>, Refusal>
        ensures { Sails (Attempts (option letter) (afloat (vessel_of self.old).running (λ m. stepped fate (vessel_of self.old) (Ok (nothing, m)))) result) self.old self.new }
    {
        self.berth.act(fate, |_| Ok(<Step>::default()))
    }

    // A word is given to be said to a boat.
    pub fn say(&mut self, to: BoatId, word: Spoken, fate: Fate) -> Result<Option<Message>, Refusal>
        ensures { Sails (Attempts (option letter) (afloat (vessel_of self.old).running (λ m. stepped fate (vessel_of self.old) (spec.talking (call_sign self.old) to.0 m (said word)))) result) self.old self.new }
    {
        self.berth.act(fate, |boat| boat.say(to, word))
    }

    // A program begins over its file; what ran ends.
    pub fn open(
        &mut self,
        heap: Global,
        program: Program,
        fate: Fate,
    ) -> Result<Option<Message>, Refusal>
        ensures { Sails (Attempts (option letter) (begun fate program.0 (vessel_of self.old) (spec.starting (call_sign self.old) program.0 (file (vessel_of self.old).disk))) result) self.old self.new }
    {
        let number = self.number;
        let told = self
            .berth
            .begin(fate, |file| Boat::open(heap, number, program, file))?;
        self.program = program;
        Ok(told)
    }
}

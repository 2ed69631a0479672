// A rehearsal with what becomes of its messages.
ghost use Rattle.std.specs.Prelude.{◌≤◌};

use crate::answers::{Answer, Output, Reason, Refused};
use fates::Fates;
use fleet::fleet::Fleet;
use levels::numbers::{BoatId, Level};
use levels::refusals::Refusal;
use levels::standing::Standing;
use rehearsal::rehearsal::Rehearsal;
use script::faults::Fault;
use script::seed::{Draws, Scene};
use script::steps::{Message, Step};
use std::alloc::{AllocError, Global};
use std::collections::VecDeque;
use std::io;
use std::io::Write;
use world::events::Event;

mod deliveries;
mod fates;
mod reasons;
mod shows;

// What becomes of a message when it is sent: one of three, each as good as the others.
#[derive(Clone, Copy)]
pub enum Fate {
    // it comes at once
    Comes,
    // it never comes
    Lost,
    // it is held back
    Late,
}

// The rehearsal, the fates that wait for the next messages, and the fate of each word and each notice so far. The rehearsal's own lists of
// these are proved and know of no fates, so the fates stand beside them.
#[derive(Drop)]
pub struct Player {
    heap: Global,
    rehearsal: Rehearsal,
    ahead: VecDeque<Fate>,
    words: Fates,
    notices: Fates,
}

impl Player {
    // So many boats at their start, all of them on the harbour's list.
    pub(crate) fn new(heap: Global, boats: u16) -> Result<Player, Refusal> {
        let mut rehearsal = Rehearsal::new(heap, usize::from(boats))?;
        for boat in (1..=boats).map(BoatId) {
            rehearsal.play(Event::Enlist { boat })?;
        }
        Ok(Player {
            heap,
            rehearsal,
            ahead: VecDeque::new(heap),
            words: Fates::none(heap),
            notices: Fates::none(heap),
        })
    }

    // The fleet as it stands.
    pub(crate) fn fleet(&self) -> &Fleet {
        self.rehearsal.fleet()
    }

    // The standing of a boat, if there is one of that number.
    fn standing(&self, boat: BoatId) -> Option<Standing> {
        let berth = self.fleet().boat(boat)?;
        Some(berth.vessel.standing)
    }

    // Plays an event.
    fn play(&mut self, event: Event) -> Result<(), Refused> {
        self.rehearsal
            .play(event)
            .map_err(|refusal| self.refused(event, refusal))
    }

    // What became of a message when it was sent, if it was.
    fn fate(&self, message: Message) -> Option<Fate> {
        let (fates, number) = match message {
            Message::Word(n) => (&self.words, n),
            Message::Notice(n) => (&self.notices, n),
        };
        fates.get((number as usize).checked_sub(1)?)
    }

    // A message comes late, or once more.
    fn come(&mut self, message: Message) -> Result<(), Refused> {
        match self.fate(message).ok_or(Fault::NeverSent)? {
            Fate::Lost => Err(Fault::Lost.into()),
            Fate::Comes | Fate::Late => self.play(message.coming()),
        }
    }

    // The first boat whose program is too old for a level.
    fn first_outdated(&self, level: Level) -> Option<BoatId> {
        let mut boats = self.fleet().harbour().boats().keys().copied();
        boats.find(|boat| {
            self.standing(*boat)
                .is_some_and(|standing| standing.program.is_below(level))
        })
    }

    // The whole fleet is brought to a level.
    fn raise(&mut self, level: Level) -> Result<(), Refused> {
        let Err(refusal) = self.rehearsal.raise(self.heap, level) else {
            return Ok(());
        };
        match self.first_outdated(level) {
            Some(boat) if refusal == Refusal::NotPromised => Err(Refused {
                refusal,
                reason: Reason::NotPromised(boat),
            }),
            _ => Err(self.refused(Event::Announce { level }, refusal)),
        }
    }

    // A fate more waits for the messages to be sent.
    fn queue(&mut self, fate: Fate) -> Result<(), Refused> {
        self.ahead.push_back(fate).map_err(|_| Refused::no_memory())
    }

    // Does what a step asks for, and answers. The script chose the step: a match on data.
    fn act(&mut self, step: Step) -> Answer {
        let played = match step {
            Step::Renew { boat, to } => self.play(Event::Renew { boat, to }),
            Step::Back { boat, to } => self.play(Event::GoBack { boat, to }),
            Step::Promise { boat } => self.play(Event::Promise { boat }),
            Step::Tick { boat } => self.play(Event::Tick { boat }),
            Step::Announce { level } => self.play(Event::Announce { level }),
            Step::Cut { boat } => self.play(Event::Restart { boat }),
            Step::Say { from, to, word } => self.play(Event::Say { from, to, word }),
            Step::Show { boat } => self.looked_at(boat),
            Step::Lose => self.queue(Fate::Lost),
            Step::Hold => self.queue(Fate::Late),
            Step::Come { message } => self.come(message),
            Step::Raise { level } => self.raise(level),
        };
        played.into()
    }

    // Plays a step, and prints its answer and the messages that it sends.
    pub(crate) fn step(&mut self, step: Step, echo: &str, out: &mut Output) -> io::Result<()> {
        let answer = self.act(step);
        writeln!(out, "{echo}: {answer}")?;
        match step {
            Step::Raise { .. } => self.show_brought(out),
            Step::Show { boat } => self.show(boat, out),
            _ => self.settle(out),
        }
    }

    // What a drawn step may speak of. There is always a boat.
    fn scene(&self) -> Scene
        ensures { 1 ≤ result.boats }
    {
        Scene {
            boats: u16::try_from(self.fleet().boats().len())
                .unwrap_or(u16::MAX)
                .max(1),
            words: self.fleet().words().len() as u64,
            notices: self.fleet().notices().len() as u64,
        }
    }

    // Plays so many steps, drawn from a seed. The number of a turn is needed by nobody, and a step may fail. Each is written into the same text.
    pub(crate) fn draw(
        &mut self,
        seed: u64,
        count: u64,
        mut echo: String,
        out: &mut Output,
    ) -> io::Result<()> {
        let mut draws = Draws::new(seed);
        for _ in 0..count {
            let step = draws.step(self.scene());
            echo.clear();
            write!(echo, "{step}").map_err(|_| AllocError)?;
            self.step(step, echo.as_str(), out)?;
        }
        Ok(())
    }
}

// What the harbour does with each input. What is refused changes nothing.
ghost use Rattle.std.specs.Prelude.{◌≡◌, map, IfOk};
ghost use Rattle.ledger.specs.Ledgers as ledgers;
ghost use Rattle.levels.specs.Verdicts.{Performs};
ghost use Rattle.messages.specs.Messages.{letter, telling};
ghost use Rattle.stations.specs.Harbours as spec;
ghost use Rattle.harbours.specs.Views.{book_of};
ghost use Rattle.stations.specs.Steps.{deed_of, call_of};
ghost use Rattle.stations.specs.Unheards.{Hears};

use super::Harbour;
use ledger::book::Ledger;
use levels::numbers::{BoatId, Level, Program};
use levels::refusals::Refusal;
use levels::rules::accepts;
use messages::{Body, Message};
use records::Record;
use stations::step::{Call, Step};
use stations::unheard::Unheard;
use std::alloc::{AllocError, Global};
use std::collections::BTreeMap;

// A level to each boat of a list. The message is written out, since the chain is proved by what its closure makes.
fn tell_each(
    heap: Global,
    boats: &BTreeMap<BoatId, Program>,
    level: Level,
) -> Result<Vec<Message>, AllocError>
    ensures { IfOk result (λ v. map letter v.items ≡ map (spec.allowing level.0) (ledgers.listed boats.now)) }
{
    boats
        .keys()
        .map(|boat| Message {
            from: BoatId::HARBOUR,
            to: *boat,
            number: 0,
            body: Body::Allowed(level),
        })
        .collect(heap)
}

impl Harbour {
    // Its ledger.
    pub fn ledger(&self) -> &Ledger
        ensures { ledgers.book result.now ≡ book_of self.now }
    {
        &self.ledger
    }

    // Puts a boat on the list.
    pub fn list(&mut self, boat: BoatId) -> Result<Step, Refusal>
        ensures { Performs deed_of (spec.listing (book_of self.old) boat.0) result (book_of self.old) (book_of self.new) }
    {
        let new = self.ledger.floor_of(boat).is_none();
        self.ledger.list(boat)?;
        Ok(Step {
            record: new.then_some(Record::Listed {
                boat,
                floor: Program(1),
            }),
            messages: None,
        })
    }

    // A promise is heard: a higher one is written down, and it is answered with the highest.
    fn confirm(&mut self, from: BoatId, floor: Program) -> Result<Step, Refusal>
        ensures { Performs deed_of (spec.confirmed (book_of self.old) from.0 floor.0 (ledgers.hearing (book_of self.old) from.0 floor.0)) result (book_of self.old) (book_of self.new) }
    {
        let higher = self.ledger.floor_of(from) < Some(floor);
        let answer = self.ledger.hear(from, floor)?;
        Ok(Step {
            record: higher.then_some(Record::Listed { boat: from, floor }),
            messages: Some(Message::notice(BoatId::HARBOUR, from, Body::Heard(answer))),
        })
    }

    // That a level was taken changes nothing.
    fn acknowledge(&self, from: BoatId) -> Result<Step, Refusal>
        ensures { Performs deed_of (spec.acknowledged (book_of self.now) from.0) result (book_of self.now) (book_of self.now) }
    {
        if self.ledger.floor_of(from).is_none() {
            return Err(Refusal::NotListed);
        }
        Ok(Step::default())
    }

    // What it does with a message that is for it, a match on data: promises and what was taken come from boats.
    fn judge(&mut self, message: Message) -> Result<Step, Refusal>
        ensures { Performs deed_of (spec.judging (book_of self.old) message.from.0 (telling message.body)) result (book_of self.old) (book_of self.new) }
    {
        let Message { from, body, .. } = message;
        match body {
            Body::Promise(floor) if from != BoatId::HARBOUR => self.confirm(from, floor),
            Body::Taken(_) if from != BoatId::HARBOUR => self.acknowledge(from),
            _ => Err(Refusal::Malformed),
        }
    }

    // A message comes. One for another station is passed over.
    pub fn hear(&mut self, message: Message) -> Result<Step, Unheard>
        ensures { Hears deed_of (spec.hearing (book_of self.old) (letter message)) result (book_of self.old) (book_of self.new) }
    {
        if !accepts(BoatId::HARBOUR, message.to) {
            return Err(Unheard::Elsewhere);
        }
        Ok(self.judge(message)?)
    }

    // Says a level that all of the list have promised, to each of them.
    pub fn level(&mut self, heap: Global, level: Level) -> Result<Call, Refusal>
        ensures { Performs call_of (spec.announcing (book_of self.old) level.0) result (book_of self.old) (book_of self.new) }
    {
        self.ledger.may_say(level)?;
        let messages = tell_each(heap, self.ledger.boats(), level)?;
        let higher = self.ledger.said() < level;
        self.ledger.say(level)?;
        Ok(Step {
            record: higher.then_some(Record::Allowed(level)),
            messages,
        })
    }
}

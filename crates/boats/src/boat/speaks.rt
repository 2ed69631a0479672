// What a boat does with each input. What is refused changes nothing.
ghost use Rattle.std.specs.Prelude.{◌≡◌};
ghost use Rattle.forms.specs.Said.{said};
ghost use Rattle.levels.specs.Verdicts.{Performs};
ghost use Rattle.messages.specs.Messages.{letter, telling};
ghost use Rattle.stations.specs.Boats as spec;
ghost use Rattle.boats.specs.Views.{known, memory, number_of, Acts};
ghost use Rattle.stations.specs.Steps.{deed_of};
ghost use Rattle.stations.specs.Unheards.{Hears};

use super::{Boat, Memory};
use forms::word::Spoken;
use levels::numbers::{BoatId, FormNumber, Level, Program, next_number};
use levels::refusals::Refusal;
use levels::rules::{accepts, reads};
use messages::{Body, Message};
use records::Record;
use stations::step::Step;
use stations::unheard::Unheard;

impl Boat {
    // The floor becomes the program's number, and the harbour is told.
    pub fn promise(&mut self) -> Step
        ensures { Acts (λ m n. (deed_of result, n) ≡ spec.promising (number_of self.old) m) self.old self.new }
    {
        let before = self.memory.standing;
        let program = before.program;
        self.memory.answered &= program <= before.floor;
        self.memory.standing = before.promised();
        Step {
            record: (before.floor < program).then_some(Record::Floor(program)),
            messages: Some(Message::notice(self.number, BoatId::HARBOUR, Body::Promise(program))),
        }
    }

    // A floor above 1 that was not answered is told again.
    pub fn tick(&self) -> Step
        ensures { deed_of result ≡ spec.ticking (number_of self.now) (memory self.now) }
    {
        let floor = self.memory.standing.floor;
        let promise = Message::notice(self.number, BoatId::HARBOUR, Body::Promise(floor));
        let tells = floor > Program(1) && !self.memory.answered;
        Step {
            record: None,
            messages: tells.then_some(promise),
        }
    }

    // A word is said to a boat, in the form that the standing allows, with the next number.
    pub fn say(&mut self, to: BoatId, word: Spoken) -> Result<Step, Refusal>
        ensures { Acts (Performs deed_of (spec.talking (number_of self.old) to.0 (memory self.old) (said word)) result) self.old self.new }
    {
        if to == BoatId::HARBOUR || to == self.number {
            return Err(Refusal::Invalid);
        }
        let standing = self.memory.standing;
        if !reads(standing.program, word.form()) {
            return Err(Refusal::Malformed);
        }
        let number = next_number(self.memory.used)?;
        self.memory.used = number;
        Ok(Step {
            record: Some(Record::Used(number)),
            messages: Some(Message {
                from: self.number,
                to,
                number,
                body: Body::Word(word.read().put(standing.say_form(to))),
            }),
        })
    }

    // A message comes. One for another station is passed over; words come from boats, answers and levels from the harbour, and anything else is turned away.
    pub fn hear(&mut self, message: Message) -> Result<Step, Unheard>
        ensures { Acts (Hears deed_of (spec.hearing (number_of self.old) (memory self.old) (letter message)) result) self.old self.new }
    {
        if !accepts(self.number, message.to) {
            return Err(Unheard::Elsewhere);
        }
        Ok(self.memory.judge(self.number, message)?)
    }
}

impl Memory {
    // A word comes from a boat: it is kept in a form that may be written.
    fn keep(&mut self, from: BoatId, number: u32, word: Spoken) -> Result<Step, Refusal>
        ensures { Performs deed_of (spec.hearing_word (known self.old) from.0 number (said word)) result (known self.old) (known self.new) }
    {
        let form = word.form();
        if !reads(self.standing.program, form) {
            return Err(Refusal::Malformed);
        }
        let most = self.standing.keep_form(form);
        self.log.take(from, number, word, most)?;
        let kept = word.read().put(form.min(most));
        Ok(Step {
            record: Some(Record::Word {
                from,
                number,
                word: kept,
            }),
            messages: None,
        })
    }

    // The harbour answers a promise.
    fn assure(&mut self, floor: Program) -> Step
        ensures { (deed_of result, known self.new) ≡ spec.assuring (known self.old) floor.0 }
    {
        self.answered |= self.standing.floor <= floor;
        Step::default()
    }

    // The harbour says a level: one above its own is taken, and it answers with the one that it then has.
    fn learn(&mut self, me: BoatId, level: Level) -> Step
        ensures { (deed_of result, known self.new) ≡ spec.learning me.0 (known self.old) level.0 }
    {
        let before = self.standing.level;
        self.standing = self.standing.raised(level);
        Step {
            record: (before < level).then_some(Record::Allowed(level)),
            messages: Some(Message::notice(me, BoatId::HARBOUR, Body::Taken(self.standing.level))),
        }
    }

    // What it does with a message that is for it. What a message says decides: a match on data.
    fn judge(&mut self, me: BoatId, message: Message) -> Result<Step, Refusal>
        ensures { Performs deed_of (spec.judging me.0 (known self.old) message.from.0 message.number (telling message.body)) result (known self.old) (known self.new) }
    {
        let Message {
            from,
            number,
            body,
            ..
        } = message;
        match body {
            Body::Word(word) if from != BoatId::HARBOUR => self.keep(from, number, word),
            Body::Heard(floor) if from == BoatId::HARBOUR => Ok(self.assure(floor)),
            Body::Allowed(level) if from == BoatId::HARBOUR => Ok(self.learn(me, level)),
            _ => Err(Refusal::Malformed),
        }
    }
}

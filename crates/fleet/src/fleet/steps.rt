// What each event makes of the fleet. What is refused changes nothing.
ghost use Rattle.std.specs.Prelude.{◌≡◌, Result, ◌+◌, ◌≤◌, ◌++◌, Ok, vec_len, vec_capacity};
ghost use Rattle.std.specs.Borrow.{sem};
ghost use Rattle.std.specs.BTreeMap.{btree_map_len};
ghost use Rattle.forms.specs.Said.{said};
ghost use Rattle.ledger.specs.Ledgers.{listed};
ghost use Rattle.levels.specs.Rules.{Boat};
ghost use Rattle.levels.specs.Verdicts.{Verdict, Does, Tries, told};
ghost use Rattle.world.specs.declared.messages.Notice.TheVariants.{Promised, Heard, Allowed};
ghost use Rattle.fleet.specs.Fleets.{world, floor_told, Makes, beginning};
ghost use Rattle.fleet.specs.Lends.{Lookup, LendsBoat};
ghost use Rattle.world.specs.Worlds as spec;

use super::{Berth, Fleet};
use forms::sent::Sent;
use forms::word::Spoken;
use levels::numbers::{BoatId, Level, Program, next_number};
use levels::refusals::Refusal;
use levels::rules::reads;
use levels::standing::Standing;
use std::collections::BTreeMap;
use world::events::Event;
use world::messages::Notice;

// A level is told to each boat of a list. There is room for all, so that nothing can fail here: `extend` may.
fn tell_each(notices: &mut Vec<Notice>, boats: &BTreeMap<BoatId, Program>, level: Level)
    requires { vec_len notices.old + btree_map_len boats.now ≤ vec_capacity notices.old }
    ensures { notices.new.items ≡ notices.old.items ++ spec.to_each level.0 (listed boats.now) }
{
    for boat in boats.keys() {
        notices.push_reserved(Notice::Allowed { to: *boat, level });
    }
}

// The boat with a number, to be changed.
fn boat_mut(boats: &mut Vec<Berth>, boat: BoatId) -> Result<&mut Berth, Refusal>
    ensures* writes_back { sem 𝓛 (LendsBoat boats.entry boat.0 result) }
    ensures value { Lookup boats.old.items boat.0 result }
{
    let Some(place) = boat.place() else {
        return Err(Refusal::Invalid);
    };
    let Some(berth) = boats.get_mut(place) else {
        return Err(Refusal::Invalid);
    };
    Ok(berth)
}

// A boat tells its floor, where that is above 1.
fn tell_floor(notices: &mut Vec<Notice>, boat: BoatId, floor: Program) -> Result<(), Refusal>
    ensures { Tries (Ok (floor_told notices.old.items boat.0 floor.0)) result notices.old.items notices.new.items }
{
    if floor > Program(1) {
        notices.push(Notice::Promised { from: boat, floor })?;
    }
    Ok(())
}

impl Fleet {
    // A program begins on a boat, with the standing that `change` makes of the one before: what was not written down is forgotten, and a floor above 1 is told.
    fn begin<F: FnOnce(Standing) -> Result<Standing, Refusal>>(
        &mut self,
        boat: BoatId,
        change: F,
    ) -> Result<(), Refusal>
        requires { F.IsAlwaysCallable change }
        ensures { (make : Boat → Result Boat Verdict) → Makes (F.post change) make → Tries (beginning (world self.old) boat.0 make) result (world self.old) (world self.new) }
    {
        let berth = boat_mut(&mut self.boats, boat)?;
        let standing = change(berth.vessel.standing)?;
        tell_floor(&mut self.notices, boat, standing.floor)?;
        berth.vessel.standing = standing;
        berth.vessel.answered = false;
        berth.log.fall();
        Ok(())
    }

    fn renew(&mut self, boat: BoatId, to: Program) -> Result<(), Refusal>
        ensures { Tries (spec.renewing (world self.old) boat.0 to.0) result (world self.old) (world self.new) }
    {
        self.begin(boat, |standing| standing.renewed(to))
    }

    fn go_back(&mut self, boat: BoatId, to: Program) -> Result<(), Refusal>
        ensures { Tries (spec.going_back (world self.old) boat.0 to.0) result (world self.old) (world self.new) }
    {
        self.begin(boat, |standing| standing.gone_back(to))
    }

    fn restart(&mut self, boat: BoatId) -> Result<(), Refusal>
        ensures { Tries (spec.restarting (world self.old) boat.0) result (world self.old) (world self.new) }
    {
        self.begin(boat, |standing| Ok(standing))
    }

    // An answer counts on only where the floor was the program's number already.
    fn promise(&mut self, boat: BoatId) -> Result<(), Refusal>
        ensures { Tries (spec.promising (world self.old) boat.0) result (world self.old) (world self.new) }
    {
        let berth = boat_mut(&mut self.boats, boat)?;
        let before = berth.vessel.standing;
        self.notices.push(Notice::Promised {
            from: boat,
            floor: before.program,
        })?;
        berth.vessel.answered &= before.program <= before.floor;
        berth.vessel.standing = before.promised();
        Ok(())
    }

    fn tick(&mut self, boat: BoatId) -> Result<(), Refusal>
        ensures { Tries (spec.ticking (world self.old) boat.0) result (world self.old) (world self.new) }
    {
        let vessel = self.boat(boat).ok_or(Refusal::Invalid)?.vessel;
        if vessel.answered {
            return Ok(());
        }
        let floor = vessel.standing.floor;
        tell_floor(&mut self.notices, boat, floor)
    }

    fn enlist(&mut self, boat: BoatId) -> Result<(), Refusal>
        ensures { Tries (spec.enlisting (world self.old) boat.0) result (world self.old) (world self.new) }
    {
        self.boat(boat).ok_or(Refusal::Invalid)?;
        self.harbour.list(boat)
    }

    // The word goes out in the form that the speaker's standing allows, whatever form it was given in, with the next number.
    fn say(&mut self, from: BoatId, to: BoatId, word: Spoken) -> Result<(), Refusal>
        ensures { Tries (spec.talking (world self.old) from.0 to.0 (said word)) result (world self.old) (world self.new) }
    {
        if to == from || self.boat(to).is_none() {
            return Err(Refusal::Invalid);
        }
        let berth = boat_mut(&mut self.boats, from)?;
        if !reads(berth.vessel.standing.program, word.form()) {
            return Err(Refusal::Malformed);
        }
        let number = next_number(berth.vessel.used)?;
        let given = word.read();
        let spoken = given.put(berth.vessel.standing.say_form(to));
        self.words.push(Sent {
            from,
            to,
            number,
            given,
            spoken,
        })?;
        berth.vessel.used = number;
        Ok(())
    }

    // The harbour is brought a promise: it keeps the highest, and answers.
    fn confirm(&mut self, from: BoatId, floor: Program) -> Result<(), Refusal>
        ensures { Tries (spec.hearing_notice (world self.old) (Promised from floor)) result (world self.old) (world self.new) }
    {
        self.harbour.floor_of(from).ok_or(Refusal::NotListed)?;
        self.notices.reserve(1)?;
        let floor = self.harbour.hear(from, floor)?;
        self.notices
            .push_reserved(Notice::Heard { to: from, floor });
        Ok(())
    }

    // A boat is brought an answer to its promise.
    fn assure(&mut self, to: BoatId, floor: Program) -> Result<(), Refusal>
        ensures { Does (spec.hearing_notice (world self.old) (Heard to floor)) result (world self.old) (world self.new) }
    {
        let berth = boat_mut(&mut self.boats, to)?;
        berth.vessel.answered |= berth.vessel.standing.floor <= floor;
        Ok(())
    }

    // A boat is brought a level: it takes one above its own, and answers.
    fn learn(&mut self, to: BoatId, level: Level) -> Result<(), Refusal>
        ensures { Tries (spec.hearing_notice (world self.old) (Allowed to level)) result (world self.old) (world self.new) }
    {
        let berth = boat_mut(&mut self.boats, to)?;
        let standing = berth.vessel.standing.raised(level);
        self.notices.push(Notice::Taken {
            from: to,
            level: standing.level,
        })?;
        berth.vessel.standing = standing;
        Ok(())
    }

    // The harbour is brought word that a level was taken.
    fn acknowledge(&self, from: BoatId) -> Result<(), Refusal>
        ensures { told (λ _. world self.now) result ≡ spec.acknowledging (world self.now) from.0 }
    {
        self.harbour.floor_of(from).ok_or(Refusal::NotListed)?;
        Ok(())
    }

    // What a notice says decides what is done: a match on data.
    fn bring_notice(&mut self, number: usize) -> Result<(), Refusal>
        ensures { Tries (spec.bringing_notice (world self.old) number) result (world self.old) (world self.new) }
    {
        let notice = self.notices.get(number).copied().ok_or(Refusal::Invalid)?;
        match notice {
            Notice::Promised { from, floor } => self.confirm(from, floor),
            Notice::Heard { to, floor } => self.assure(to, floor),
            Notice::Allowed { to, level } => self.learn(to, level),
            Notice::Taken { from, level: _ } => self.acknowledge(from),
        }
    }

    // A word comes to the boat that it is for: it takes it, or passes it over. One that its program does not read is turned away.
    fn bring_word(&mut self, number: usize) -> Result<(), Refusal>
        ensures { Tries (spec.bringing_word (world self.old) number) result (world self.old) (world self.new) }
    {
        let sent = self.words.get(number).copied().ok_or(Refusal::Invalid)?;
        let berth = boat_mut(&mut self.boats, sent.to)?;
        let form = sent.spoken.form();
        if !reads(berth.vessel.standing.program, form) {
            return Err(Refusal::Malformed);
        }
        let most = berth.vessel.standing.keep_form(form);
        berth.log.take(sent.from, sent.number, sent.spoken, most)
    }

    fn announce(&mut self, level: Level) -> Result<(), Refusal>
        ensures { Tries (spec.announcing (world self.old) level.0) result (world self.old) (world self.new) }
    {
        self.harbour.may_say(level)?;
        self.notices.reserve(self.harbour.boats().len())?;
        self.harbour.say(level)?;
        tell_each(&mut self.notices, self.harbour.boats(), level);
        Ok(())
    }

    // Plays one event: whoever plays chose it, so this is a match on data.
    pub fn play(&mut self, event: Event) -> Result<(), Refusal>
        ensures { Tries (spec.play (world self.old) event) result (world self.old) (world self.new) }
    {
        match event {
            Event::Enlist { boat } => self.enlist(boat),
            Event::Renew { boat, to } => self.renew(boat, to),
            Event::GoBack { boat, to } => self.go_back(boat, to),
            Event::Restart { boat } => self.restart(boat),
            Event::Promise { boat } => self.promise(boat),
            Event::Tick { boat } => self.tick(boat),
            Event::Announce { level } => self.announce(level),
            Event::Say { from, to, word } => self.say(from, to, word),
            Event::BringWord { number } => self.bring_word(number),
            Event::BringNotice { number } => self.bring_notice(number),
        }
    }
}

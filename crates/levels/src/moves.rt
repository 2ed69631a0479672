// What a boat does with its standing: each step takes one by value and hands one back.
ghost use Rattle.std.specs.Prelude.{◌≡◌, min};
ghost use Rattle.levels.specs.Rules.{newest};
ghost use Rattle.levels.specs.Rules as rules;
ghost use Rattle.levels.specs.Standings.{view};
ghost use Rattle.levels.specs.Standings as spec;
ghost use Rattle.levels.specs.Verdicts.{told};

use crate::numbers::{BoatId, FormNumber, Level, Program};
use crate::refusals::Refusal;
use crate::rules::newest;
use crate::standing::Standing;

// The highest form that a level allows to a program: the lower of both. They are numbers of two widths, cast where nothing is lost.
fn highest(level: Level, program: Program) -> FormNumber
    ensures { result.0 ≡ min level.0 (rules.newest program.0) }
{
    FormNumber(level.0.min(newest(program).0 as u32) as u8)
}

// Each step takes `mut self` and assigns: where there are ghost fields no literal with `..self` can be written.
impl Standing {
    // A boat at its start: program, floor and level are 1.
    pub fn first() -> Standing
        ensures { view result ≡ spec.first }
    {
        Standing {
            program: Program(1),
            floor: Program(1),
            level: Level(1),
        }
    }

    // A program at least as new.
    pub fn renewed(mut self, to: Program) -> Result<Standing, Refusal>
        ensures { told view result ≡ spec.renewed (view self) to.0 }
    {
        if to < self.program {
            return Err(Refusal::Invalid);
        }
        self.program = to;
        Ok(self)
    }

    // An older program, not below the floor.
    pub fn gone_back(mut self, to: Program) -> Result<Standing, Refusal>
        ensures { told view result ≡ spec.gone_back (view self) to.0 }
    {
        if to >= self.program {
            return Err(Refusal::Invalid);
        }
        if to < self.floor {
            return Err(Refusal::BelowFloor);
        }
        self.program = to;
        Ok(self)
    }

    // The floor becomes the present program.
    pub fn promised(mut self) -> Standing
        ensures { view result ≡ spec.promised (view self) }
    {
        self.floor = self.program;
        self
    }

    // A level that is heard is taken if it is above its own.
    pub fn raised(mut self, level: Level) -> Standing
        ensures { view result ≡ spec.raised (view self) level.0 }
    {
        self.level = self.level.max(level);
        self
    }

    // The level up to which forms may be used towards another boat: its own level, whoever that is.
    pub fn may_use(self, _towards: BoatId) -> Level
        ensures { result.0 ≡ rules.may_use (view self) _towards.0 }
    {
        self.level
    }

    // The form in which it says a word to another boat: the lower of what may be used and what its program writes.
    pub fn say_form(self, to: BoatId) -> FormNumber
        ensures { result.0 ≡ rules.say_form (view self) to.0 }
    {
        highest(self.may_use(to), self.program)
    }

    // The form in which it keeps a word that came in some form: the lower of that and what its level and its program allow.
    pub fn keep_form(self, came: FormNumber) -> FormNumber
        ensures { result.0 ≡ rules.keep_form (view self) came.0 }
    {
        came.min(highest(self.level, self.program))
    }
}

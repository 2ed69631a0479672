// Numbers that a type keeps apart.
ghost use Rattle.std.specs.Prelude.{◌≡◌, ◌+◌, Some, nat_lt, MatchOption};
ghost use Rattle.std.specs.Fmt.{decimal};
ghost use Rattle.levels.specs.Verdicts.{told};
ghost use Rattle.levels.specs.Standings.{counting};

use crate::refusals::Refusal;
use std::fmt;
use std::fmt::Display;

// A boat's number. The harbour is number 0 and no boat.
#[derive(Clone, Copy, PartialEq, Eq, PartialOrd, Ord, Debug)]
pub struct BoatId(pub u16);

impl BoatId {
    pub const HARBOUR: BoatId = BoatId(0);

    // The place of a boat in a list of all boats from number 1 on. The harbour has none.
    pub fn place(self) -> Option<usize>
        ensures { MatchOption result (self.0 ≡ 0) (λ i. self.0 ≡ i + 1) }
    {
        usize::from(self.0).checked_sub(1)
    }
}

// A program's number, from 1 up; the newest has the highest. A floor is one, too: the program below which a boat has promised not to go.
#[derive(Clone, Copy, PartialEq, Eq, PartialOrd, Ord, Debug)]
pub struct Program(pub u32);

impl Program {
    // Is it too old for a level?
    pub fn is_below(self, level: Level) -> bool
        ensures { result ≡ nat_lt self.0 level.0 }
    {
        self.0 < level.0
    }
}

// A level, from 1 up: the highest program whose forms may be used.
#[derive(Clone, Copy, PartialEq, Eq, PartialOrd, Ord, Debug)]
pub struct Level(pub u32);

// The number of a form of speech: 1 to 3.
#[derive(Clone, Copy, PartialEq, Eq, PartialOrd, Ord, Debug)]
pub struct FormNumber(pub u8);

impl fmt::Display for BoatId {
    ghost output = { λ boat. Some (decimal boat.0) };

    fn fmt<W: fmt::Write>(&self, f: &mut fmt::Formatter<W>) -> fmt::Result {
        let BoatId(boat) = *self;
        boat.fmt(f)
    }
}

impl fmt::Display for Program {
    ghost output = { λ program. Some (decimal program.0) };

    fn fmt<W: fmt::Write>(&self, f: &mut fmt::Formatter<W>) -> fmt::Result {
        let Program(program) = *self;
        program.fmt(f)
    }
}

impl fmt::Display for Level {
    ghost output = { λ level. Some (decimal level.0) };

    fn fmt<W: fmt::Write>(&self, f: &mut fmt::Formatter<W>) -> fmt::Result {
        let Level(level) = *self;
        level.fmt(f)
    }
}

impl fmt::Display for FormNumber {
    ghost output = { λ form. Some (decimal form.0) };

    fn fmt<W: fmt::Write>(&self, f: &mut fmt::Formatter<W>) -> fmt::Result {
        let FormNumber(form) = *self;
        form.fmt(f)
    }
}

// Where the numbers of a boat's words are used up.
const NUMBERS_END: u64 = 4294967296;

// The number of a boat's next word, after those that are used; once they are used up there is none, 6. It is counted in a wider type, and cast where nothing is lost.
pub fn next_number(used: u32) -> Result<u32, Refusal>
    ensures { told (λ n. n) result ≡ counting used }
{
    let next = used as u64 + 1;
    if next >= NUMBERS_END {
        return Err(Refusal::Full);
    }
    Ok(next as u32)
}

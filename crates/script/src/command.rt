// Reading a line of the script.
ghost use Rattle.std.specs.Prelude.{◌≡◌, ◌<◌, ◌≤◌, true, length, IfSome, IfOk};
ghost use Rattle.std.specs.Ordering.{partial_le};
ghost use Rattle.std.specs.Range.{range_inclusive_start, range_inclusive_end};
ghost use Rattle.script.specs.Commands.{Allowed};

use crate::faults::Fault;
use crate::numbers::number;
use crate::steps::Step;
use arrayvec::ArrayVec;
use forms::name::{LONGEST, Name};
use forms::word::Spoken;
use levels::numbers::{BoatId, Level, Program};
use std::num::ParseIntError;
use std::ops::RangeInclusive;
use std::str::FromStr;

// The most steps that one command may draw.
const MOST_DRAWN: u64 = 1_000_000;

// What a line asks for.
#[derive(Clone, Copy)]
pub enum Command {
    // so many boats
    Boats(u16),
    // so many steps, drawn from a seed
    Seed { seed: u64, count: u64 },
    // the table
    Read,
    // one step
    Play(Step),
}

// The digit that a byte is, in base 16.
fn hex_digit(byte: u8) -> Option<u8>
    ensures { IfSome result (λ d. d ≤ 15) }
{
    char::from(byte).to_digit(16).map(|digit| digit as u8)
}

// The byte that a name begins with, and the rest of the name. `\xNN` stands for one byte.
fn first_byte(text: &[u8]) -> Option<(u8, &[u8])>
    ensures { IfSome result (λ p. length p.1.now < length text.now) }
{
    match text {
        [b'\\', b'x', high, low, rest @ ..] => Some((
            hex_digit(*high)? * 16 + hex_digit(*low)?,
            rest,
        )),
        [b'\\', ..] | [] => None,
        [byte, rest @ ..] => Some((*byte, rest)),
    }
}

// A second name: at most 40 bytes.
fn name_of(text: &[u8]) -> Result<Name, Fault> {
    let mut name = ArrayVec::<u8, LONGEST>::new();
    let mut rest = text;
    while !rest.is_empty() {
        let (byte, others) = first_byte(rest).ok_or(Fault::NotName)?;
        name.try_push(byte).or(Err(Fault::LongName))?;
        rest = others;
    }
    Ok(Name::new(name.as_slice()).unwrap())
}

// The words of a line that are still to be read, one space between two. A second name takes the rest as it stands, which the library's `split` does not hand out.
#[derive(Drop)]
struct Words<'a> {
    rest: &'a str,
}

impl<'a> Iterator for Words<'a> {
    type Item = &'a str;

    fn next(&mut self) -> Option<&'a str> {
        if self.rest.is_empty() {
            return None;
        }
        let (word, rest) = self.rest.split_once(' ').unwrap_or((self.rest, ""));
        self.rest = rest;
        Some(word)
    }
}

impl<'a> Words<'a> {
    // The next word.
    fn word(&mut self) -> Result<&'a str, Fault> {
        self.next().ok_or(Fault::TooFewWords)
    }

    // The next word as a number in a range.
    fn number<N>(&mut self, range: RangeInclusive<N>, fault: Fault) -> Result<N, Fault>
    where
        N: FromStr<Err = ParseIntError> + PartialOrd + Drop,
        ensures least { IfOk result (λ n. partial_le N.partial_cmp (range_inclusive_start range) n ≡ true) }
        ensures most { IfOk result (λ n. partial_le N.partial_cmp n (range_inclusive_end range) ≡ true) }
    {
        number(self.word()?, range).ok_or(fault)
    }

    // The next word as a boat's number.
    fn boat(&mut self) -> Result<BoatId, Fault> {
        Ok(BoatId(self.number(0..=u16::MAX, Fault::NotBoat)?))
    }

    // The next word as a program.
    fn program(&mut self) -> Result<Program, Fault>
        ensures { IfOk result (λ p. (1 ≤ p.0) × (p.0 ≤ 3)) }
    {
        Ok(Program(self.number(1..=3, Fault::NotProgram)?))
    }

    // The next word as a level.
    fn level(&mut self) -> Result<Level, Fault>
        ensures { IfOk result (λ k. 1 ≤ k.0) }
    {
        Ok(Level(self.number(1..=u32::MAX, Fault::NotLevel)?))
    }

    // The next word as a draught.
    fn draught(&mut self) -> Result<u16, Fault> {
        self.number(0..=u16::MAX, Fault::NotDraught)
    }

    // The rest as a word, in the form in which it is given: without a draught behind, with one, and with a second name, which goes to the line's end.
    fn spoken(&mut self) -> Result<Spoken, Fault> {
        let ship = self.number(0..=u32::MAX, Fault::NotShip)?;
        let lock = self.number(0..=u16::MAX, Fault::NotLock)?;
        let before = self.draught()?;
        if self.rest.is_empty() {
            return Ok(Spoken::First { ship, lock, before });
        }
        let behind = self.draught()?;
        if self.rest.is_empty() {
            return Ok(Spoken::Second {
                ship,
                lock,
                before,
                behind,
            });
        }
        let name = name_of(self.rest.as_bytes())?;
        self.rest = "";
        Ok(Spoken::Third {
            ship,
            lock,
            before,
            behind,
            name,
        })
    }

    // The command that the words give.
    fn command(&mut self) -> Result<Command, Fault>
        ensures { IfOk result Allowed }
    {
        let step = match self.word()? {
            "boats" => return Ok(Command::Boats(self.number(1..=8, Fault::NotBoats)?)),
            "seed" => {
                return Ok(Command::Seed {
                    seed: self.number(0..=u64::MAX, Fault::NotSeed)?,
                    count: self.number(0..=MOST_DRAWN, Fault::NotCount)?,
                });
            }
            "read" => return Ok(Command::Read),
            "renew" => Step::Renew {
                boat: self.boat()?,
                to: self.program()?,
            },
            "back" => Step::Back {
                boat: self.boat()?,
                to: self.program()?,
            },
            "promise" => Step::Promise { boat: self.boat()? },
            "tick" => Step::Tick { boat: self.boat()? },
            "level" => Step::Announce {
                level: self.level()?,
            },
            "cut" => Step::Cut { boat: self.boat()? },
            "say" => Step::Say {
                from: self.boat()?,
                to: self.boat()?,
                word: self.spoken()?,
            },
            "show" => Step::Show { boat: self.boat()? },
            "lose" => Step::Lose,
            "late" => Step::Hold,
            "come" => Step::Come {
                message: self.word()?.parse()?,
            },
            "raise" => Step::Raise {
                level: self.level()?,
            },
            _ => return Err(Fault::UnknownCommand),
        };
        Ok(Command::Play(step))
    }
}

impl FromStr for Command {
    type Err = Fault;

    ghost from_str_gives = { λ _ command. IfOk command Allowed };

    fn from_str(line: &str) -> Result<Command, Fault> {
        let mut words = Words { rest: line };
        let command = words.command()?;
        match words.next() {
            None => Ok(command),
            Some(_) => Err(Fault::TooManyWords),
        }
    }
}

// Reads a line: words with one space between two. The first fault from the left is the answer.
pub fn parse(line: &str) -> Result<Command, Fault>
    ensures { IfOk result Allowed }
{
    line.parse()
}

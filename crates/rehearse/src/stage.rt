// Plays one line of the script after another.
use crate::answers::{Answer, Output, Refused};
use crate::player::Player;
use crate::table::Table;
use script::command::{Command, parse};
use script::faults::Fault;
use script::lines::{Line, shortened};
use std::alloc::Global;
use std::io;
use std::io::{BufWriter, Stdout, Write};

// For how many bytes the text of a drawn step finds place at first.
const MOST_DRAWN: usize = 256;

// How many bytes are kept from a step, so that the lines behind it can be read: a line and its text, each as it grows.
const SPARE: usize = 32 * 1024;

// So much memory, or a part of it where that is all that can be had.
fn spare(heap: Global) -> Option<Vec<u8>> {
    [SPARE, SPARE / 4, SPARE / 16]
        .into_iter()
        .find_map(|bytes| Vec::with_capacity(heap, bytes).ok())
}

// The player, once there are boats, and where all is printed.
#[derive(Drop)]
pub struct Stage {
    heap: Global,
    player: Option<Player>,
    out: Output,
}

impl Stage {
    // A stage with no boats yet.
    pub(crate) fn new(heap: Global, out: Stdout) -> io::Result<Stage> {
        Ok(Stage {
            heap,
            player: None,
            out: BufWriter::new(heap, out)?,
        })
    }

    // Prints the answer to a line.
    fn answer(&mut self, echo: &str, answer: Answer) -> io::Result<()> {
        writeln!(self.out, "{echo}: {answer}")
    }

    // Answers what cannot be played.
    fn bad(&mut self, echo: &str, fault: Fault) -> io::Result<()> {
        self.answer(echo, Answer::Refused(fault.into()))
    }

    // Makes the boats.
    fn begin(&mut self, boats: u16, echo: &str) -> io::Result<()> {
        let Ok(player) = Player::new(self.heap, boats) else {
            return self.answer(echo, Answer::Refused(Refused::no_memory()));
        };
        self.player = Some(player);
        self.answer(echo, Answer::Done)
    }

    // Plays a command before there are boats.
    fn play_first(&mut self, command: Command, echo: &str) -> io::Result<()> {
        match command {
            Command::Boats(boats) => self.begin(boats, echo),
            _ => self.bad(echo, Fault::NoBoatsYet),
        }
    }

    // Plays what the player does, which the script chose: a match on data. What the next lines need is kept from it, where that is to be had: a step that needs no memory is done all the same.
    fn play(&mut self, command: Command, echo: &str) -> io::Result<()> {
        let Some(player) = &mut self.player else {
            return self.play_first(command, echo);
        };
        let spare = spare(self.heap);
        match command {
            Command::Boats(_) => self.bad(echo, Fault::BoatsAlready),
            Command::Read => {
                drop(spare);
                writeln!(self.out, "{echo}: ok")?;
                let table = Table::new(self.heap, player.fleet())?;
                write!(self.out, "{table}")
            }
            Command::Seed { seed, count } => {
                let Ok(text) = String::with_capacity(self.heap, MOST_DRAWN) else {
                    return self.answer(echo, Answer::Refused(Refused::no_memory()));
                };
                writeln!(self.out, "{echo}: ok")?;
                player.draw(seed, count, text, &mut self.out)
            }
            Command::Play(step) => player.step(step, echo, &mut self.out),
        }
    }

    // Plays a line. One with no words, and one that begins with `#`, is passed over.
    pub(crate) fn line(&mut self, line: &Line) -> io::Result<()> {
        let text = line.plain(self.heap)?;
        if text.as_str().starts_with('#') {
            return Ok(());
        }
        let echo = shortened(self.heap, text.as_str())?;
        if line.is_long() {
            self.bad(echo.as_str(), Fault::LongLine)?;
        } else if !text.is_empty() {
            match parse(text.as_str()) {
                Ok(command) => self.play(command, echo.as_str())?,
                Err(fault) => self.bad(echo.as_str(), fault)?,
            }
        }
        self.out.flush()
    }

    // Prints the table at the end, if there are boats.
    pub(crate) fn end(&mut self) -> io::Result<()> {
        if let Some(player) = &self.player {
            let table = Table::new(self.heap, player.fleet())?;
            write!(self.out, "{table}")?;
        }
        self.out.flush()
    }
}

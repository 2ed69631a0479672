// Steps drawn from a seed: the same seed gives the same steps.
ghost use Rattle.std.specs.Prelude.{◌≡◌, ◌<◌, ◌≤◌, IfSome, MatchOption};
ghost use Rattle.script.specs.Draws.{There, OneToThree, WasSent, Drawn};

use crate::steps::{Message, Step};
use forms::name::Name;
use forms::word::Spoken;
use levels::numbers::{BoatId, Level, Program};

// What a drawn step may speak of: so many boats, so many words and notices sent.
#[derive(Clone, Copy)]
pub struct Scene {
    pub boats: u16,
    pub words: u64,
    pub notices: u64,
}

// The generator splitmix64, by its state.
#[derive(Clone, Copy)]
pub struct Draws {
    state: u64,
}

impl Draws {
    // The generator at the start of a seed.
    pub fn new(seed: u64) -> Draws
        ensures { result.state ≡ seed }
    {
        Draws { state: seed }
    }

    // The next number of 64 bits.
    fn next(&mut self) -> u64 {
        self.state = self.state.wrapping_add(0x9E3779B97F4A7C15);
        let mut z = self.state;
        z = (z ^ (z >> 30)).wrapping_mul(0xBF58476D1CE4E5B9);
        z = (z ^ (z >> 27)).wrapping_mul(0x94D049BB133111EB);
        z ^ (z >> 31)
    }

    // A number below n.
    fn draw(&mut self, n: u64) -> u64
        requires { 1 ≤ n }
        ensures { result < n }
    {
        self.next() % n
    }

    // One of so many boats.
    fn boat(&mut self, boats: u16) -> BoatId
        requires { 1 ≤ boats }
        ensures { There boats result }
    {
        BoatId(1 + self.draw(boats as u64) as u16)
    }

    // The number of one of three.
    fn one_to_three(&mut self) -> u32
        ensures { OneToThree result }
    {
        1 + self.draw(3) as u32
    }

    // One of the programs 1 to 3.
    fn program(&mut self) -> Program
        ensures { OneToThree result.0 }
    {
        Program(self.one_to_three())
    }

    // The number of one of so many messages, unless there is none.
    fn sent(&mut self, messages: u64) -> Option<u64>
        ensures { IfSome result (λ n. (1 ≤ n) × (n ≤ messages)) }
    {
        if messages == 0 {
            return None;
        }
        Some(1 + self.draw(messages))
    }

    // A message that was sent, unless none of the drawn sort was.
    fn message(&mut self, scene: Scene) -> Option<Message>
        ensures { IfSome result (WasSent scene) }
    {
        if self.draw(2) == 0 {
            self.sent(scene.words).map(Message::Word)
        } else {
            self.sent(scene.notices).map(Message::Notice)
        }
    }

    // A draught from 10 to 49.
    fn draught(&mut self) -> u16 {
        10 + self.draw(40) as u16
    }

    // A second name of one letter.
    fn name(&mut self) -> Name {
        let letter = b'A' + self.draw(26) as u8;
        Name::new(&[letter]).unwrap()
    }

    // A word about one of three ships at one of nine locks, in one of the three forms.
    fn word(&mut self) -> Spoken {
        let form = self.one_to_three();
        let ship = self.one_to_three();
        let lock = 1 + self.draw(9) as u16;
        let before = self.draught();
        if form == 1 {
            return Spoken::First { ship, lock, before };
        }
        let behind = self.draught();
        if form == 2 {
            return Spoken::Second {
                ship,
                lock,
                before,
                behind,
            };
        }
        Spoken::Third {
            ship,
            lock,
            before,
            behind,
            name: self.name(),
        }
    }

    // One step, where there is a boat.
    pub fn step(&mut self, scene: Scene) -> Step
        requires { 1 ≤ scene.boats }
        ensures { Drawn scene result }
    {
        let boats = scene.boats;
        match self.draw(16) {
            0..=1 => Step::Renew {
                boat: self.boat(boats),
                to: self.program(),
            },
            2..=3 => Step::Back {
                boat: self.boat(boats),
                to: self.program(),
            },
            4..=5 => Step::Promise {
                boat: self.boat(boats),
            },
            6 => Step::Tick {
                boat: self.boat(boats),
            },
            7..=8 => Step::Announce {
                level: Level(self.one_to_three()),
            },
            9..=11 => Step::Say {
                from: self.boat(boats),
                to: self.boat(boats),
                word: self.word(),
            },
            12 => Step::Lose,
            13 => Step::Hold,
            14 => match self.message(scene) {
                Some(message) => Step::Come { message },
                None => Step::Tick {
                    boat: self.boat(boats),
                },
            },
            _ => Step::Cut {
                boat: self.boat(boats),
            },
        }
    }

    // One step, unless there is no boat.
    pub fn step_if_any(&mut self, scene: Scene) -> Option<Step>
        ensures { MatchOption result (scene.boats ≡ 0) (Drawn scene) }
    {
        if scene.boats == 0 {
            return None;
        }
        Some(self.step(scene))
    }
}

// A word about a ship, and the forms in which it is said.
ghost use Rattle.std.specs.Prelude.{◌≡◌};
ghost use Rattle.forms.specs.Meaning.{put, get, form_of, ship_of, Laws};
ghost use Rattle.forms.specs.Said.{meaning, said};

use crate::name::Name;
use levels::numbers::FormNumber;

// What is said about a ship, with all that the newest form has.
#[derive(Clone, Copy)]
pub struct Word {
    pub ship: u32,
    pub lock: u16,
    pub before: u16,
    pub behind: u16,
    pub name: Name,
}

// A word in one of the forms, which has just what that form has.
#[derive(Clone, Copy)]
pub enum Spoken {
    First {
        ship: u32,
        lock: u16,
        before: u16,
    },
    Second {
        ship: u32,
        lock: u16,
        before: u16,
        behind: u16,
    },
    Third {
        ship: u32,
        lock: u16,
        before: u16,
        behind: u16,
        name: Name,
    },
}

impl Word {
    // The word put into a form, which forgets what that form leaves out. Form 0 is none: it is put into form 1; above 3 there is none: into form 3.
    pub fn put(self, form: FormNumber) -> Spoken
        ensures { said result ≡ put form.0 (meaning self) }
    {
        let Word {
            ship,
            lock,
            before,
            behind,
            name,
        } = self;
        match form.0 {
            0..=1 => Spoken::First { ship, lock, before },
            2 => Spoken::Second {
                ship,
                lock,
                before,
                behind,
            },
            _ => Spoken::Third {
                ship,
                lock,
                before,
                behind,
                name,
            },
        }
    }
}

impl Spoken {
    // The form that it is in: a table, as one match.
    pub fn form(self) -> FormNumber
        ensures { result.0 ≡ form_of (said self) }
    {
        match self {
            Spoken::First { .. } => FormNumber(1),
            Spoken::Second { .. } => FormNumber(2),
            Spoken::Third { .. } => FormNumber(3),
        }
    }

    // The ship that it is about.
    pub fn ship(self) -> u32
        ensures { result ≡ ship_of (said self) }
    {
        match self {
            Spoken::First { ship, .. } | Spoken::Second { ship, .. } | Spoken::Third { ship, .. } =>
                ship,
        }
    }

    // What it means: the draught behind as before, and no second name, where the form has none.
    pub fn read(self) -> Word
        ensures { meaning result ≡ get (said self) }
    {
        match self {
            Spoken::First { ship, lock, before } => Word {
                ship,
                lock,
                before,
                behind: before,
                name: Name::none(),
            },
            Spoken::Second {
                ship,
                lock,
                before,
                behind,
            } => Word {
                ship,
                lock,
                before,
                behind,
                name: Name::none(),
            },
            Spoken::Third {
                ship,
                lock,
                before,
                behind,
                name,
            } => Word {
                ship,
                lock,
                before,
                behind,
                name,
            },
        }
    }
}

// The laws of putting and reading.
pub fn laws_stand()
    ensures { Laws }
{}

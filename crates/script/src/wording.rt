// Words as they stand in a script and in what is printed.
use forms::name::Name;
use forms::shown::Shown;
use forms::word::Spoken;
use levels::numbers::BoatId;
use std::fmt;

// `Printed` and `Given` print a name and a word, whose types lie in another crate: so no `Display` for these can stand here.

// A name as it is printed: what is not a printable character of ASCII, the space and the backslash as `\xNN`.
#[derive(Clone, Copy)]
pub struct Printed {
    pub name: Name,
}

impl fmt::Display for Printed {
    fn fmt<W: fmt::Write>(&self, f: &mut fmt::Formatter<W>) -> fmt::Result {
        for &byte in self.name.as_bytes() {
            if byte.is_ascii_graphic() && byte != b'\\' {
                f.write_char(char::from(byte))?;
            } else {
                write!(f, "\\x{byte:02x}")?;
            }
        }
        Ok(())
    }
}

// A word as it is given in a script: ship, lock, draught before, and what its form has besides.
#[derive(Clone, Copy)]
pub struct Given {
    pub word: Spoken,
}

impl fmt::Display for Given {
    fn fmt<W: fmt::Write>(&self, f: &mut fmt::Formatter<W>) -> fmt::Result {
        match self.word {
            Spoken::First { ship, lock, before } => write!(f, " {ship} {lock} {before}"),
            Spoken::Second {
                ship,
                lock,
                before,
                behind,
            } => write!(f, " {ship} {lock} {before} {behind}"),
            Spoken::Third {
                ship,
                lock,
                before,
                behind,
                name,
            } => {
                let name = Printed { name };
                write!(f, " {ship} {lock} {before} {behind} {name}")
            }
        }
    }
}

// A line of what a boat shows: a word, who said it, and with which number.
#[derive(Clone, Copy)]
pub struct Line {
    pub shown: Shown,
    pub from: BoatId,
    pub number: u32,
}

impl fmt::Display for Line {
    fn fmt<W: fmt::Write>(&self, f: &mut fmt::Formatter<W>) -> fmt::Result {
        let Shown {
            ship,
            lock,
            before,
            behind,
            name,
            form,
        } = self.shown;
        write!(f, "ship {ship} lock {lock} before {before}")?;
        if let Some(behind) = behind {
            write!(f, " behind {behind}")?;
        }
        if let Some(name) = name
            && !name.as_bytes().is_empty()
        {
            let name = Printed { name };
            write!(f, " name {name}")?;
        }
        let from = self.from;
        let number = self.number;
        write!(f, " form {form} from {from} number {number}")
    }
}

// How a name is made and read.
ghost use Rattle.std.specs.Prelude.{◌≡◌, []};
ghost use Rattle.levels.specs.Verdicts.{told};
ghost use Rattle.forms.specs.Names.{name_of, naming};

use super::{LONGEST, Name};
use levels::refusals::Refusal;

impl Name {
    // No second name.
    pub fn none() -> Name
        ensures { name_of result ≡ [] }
    {
        Name {
            bytes: [0; LONGEST],
            len: 0,
        }
    }

    // A name of some bytes; more than 40 are refused, 1.
    pub fn new(name: &[u8]) -> Result<Name, Refusal>
        ensures { told name_of result ≡ naming name.now }
    {
        let len = name.len();
        if len > LONGEST {
            return Err(Refusal::Malformed);
        }
        let mut bytes = [0; LONGEST];
        bytes[..len].copy_from_slice(name);
        Ok(Name { bytes, len })
    }

    // Its bytes.
    pub fn as_bytes(&self) -> &[u8]
        ensures { result.now ≡ name_of self.now }
    {
        &self.bytes[..self.len]
    }
}

// What a station asks of the outside: its file and the air.
ghost use Rattle.std.specs.Prelude.{Bool, is_ok};
ghost use Rattle.files.specs.Effects.{Effect, Append, Sync, Send, CutBack};

use std::alloc::{AllocError, AllocFailed};

// The outside failed, and nothing more may be asked of it.
#[derive(Clone, Copy, PartialEq, Eq, Debug)]
pub struct Lost;

impl<T: Drop> From<AllocFailed<T>> for Lost {
    fn from(_e: AllocFailed<T>) -> Lost {
        Lost
    }
}

impl From<AllocError> for Lost {
    fn from(_e: AllocError) -> Lost {
        Lost
    }
}

// `did s e ok t`: the effect e was asked at s, was done if ok, and left t.
pub trait Outside {
    ghost did: { Self → Effect → Bool → Self → Type 0 };

    // Bytes are written behind all that the file has.
    fn append(&mut self, bytes: &[u8]) -> Result<(), Lost>
        ensures { did self.old (Append bytes.now) (is_ok result) self.new };

    // All that was written is safe from a power cut.
    fn sync(&mut self) -> Result<(), Lost>
        ensures { did self.old Sync (is_ok result) self.new };

    // A message goes out.
    fn send(&mut self, bytes: &[u8]) -> Result<(), Lost>
        ensures { did self.old (Send bytes.now) (is_ok result) self.new };

    // The file is cut to its first `len` bytes.
    fn cut_back(&mut self, len: usize) -> Result<(), Lost>
        ensures { did self.old (CutBack len) (is_ok result) self.new };
}

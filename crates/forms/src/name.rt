// A ship's second name.
ghost use Rattle.std.specs.Prelude.{◌≤◌};

mod makes;

// How long a name may be.
pub const LONGEST: usize = 40;

// At most 40 bytes. No second name is the name of no bytes, and nothing else. The bytes lie in place, so that a word is a plain value that is copied and needs no memory; the library has no list in place that is copied.
#[derive(Clone, Copy)]
pub struct Name {
    bytes: [u8; LONGEST],
    len: usize,
    ghost short: { len ≤ 40 },
}

// Files of records, of any format; the last record may be cut off.
ghost use Rattle.std.specs.Prelude.{◌≡◌, ℕ, ◌<◌, ◌≤◌, List, ◌++◌, length, take, drop, Ok, Some, None, MatchResult};
ghost use Rattle.levels.specs.declared.refusals.Refusal.TheVariants.{Malformed};
ghost use Rattle.files.specs.Fronts.{Front};
ghost use Rattle.files.specs.Recovery.{whole_part, CutsBack};

use crate::front::Wrong;
use levels::refusals::Refusal;

// A reader of one kind of file. `begins` says how bytes begin, `known` which bytes are a record that it knows. Two members, since some promises need only one.
pub trait Format {
    ghost begins: { Self → List ℕ → Front };

    ghost known: { Self → List ℕ → Type 0 };

    // How bytes begin: with a whole record, of so many bytes; with a first part of one that is not the whole of it, be it of no bytes; or with what no record begins with.
    fn front(&self, bytes: &[u8]) -> Result<Option<usize>, Wrong>
        ensures { result ≡ begins self.now bytes.now };

    // what is whole is not empty, and is there
    ghost within: { (f : Self) (bs : List ℕ) (n : ℕ) → begins f bs ≡ Ok (Some n) → (0 < n) × (n ≤ length bs) };

    // a record is not empty
    ghost filled: { (f : Self) (bs : List ℕ) → known f bs → 0 < length bs };

    // a record is whole, whatever stands behind it
    ghost stays: { (f : Self) (bs more : List ℕ) → known f bs → begins f (bs ++ more) ≡ Ok (Some (length bs)) };

    // a first part of a record is short
    ghost cut: { (f : Self) (bs : List ℕ) (n : ℕ) → known f bs → n < length bs → begins f (take n bs) ≡ Ok None };
}

// The whole first part of a file: a record that is cut off at its end is left out, and a wrong one is refused, 1.
pub fn whole_part<'a, F: Format>(format: &F, file: &'a [u8]) -> Result<&'a [u8], Refusal>
    ensures { MatchResult result (λ p. (whole_part (F.Format.begins format.now) file.now ≡ Some p.now) × (p.now ++ drop (length p.now) file.now ≡ file.now)) (λ e. (e ≡ Malformed) × (whole_part (F.Format.begins format.now) file.now ≡ None)) }
{
    let mut rest = file;
    while !rest.is_empty() {
        let Some(size) = format.front(rest)? else {
            break;
        };
        rest = &rest[size..];
    }
    Ok(&file[..file.len() - rest.len()])
}

// What a cut leaves of a file of records.
pub fn cut_back_stands<F: Format>()
    ensures { (format : F) → CutsBack (F.Format.begins format) (F.Format.known format) }
{}

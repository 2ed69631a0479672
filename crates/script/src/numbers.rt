// Numbers as they stand in a script.
ghost use Rattle.std.specs.Prelude.{◌≡◌, true, IfSome};
ghost use Rattle.std.specs.Ordering.{partial_le};
ghost use Rattle.std.specs.Range.{range_inclusive_start, range_inclusive_end};

use std::num::ParseIntError;
use std::ops::RangeInclusive;
use std::str::FromStr;

// The number that a word of digits stands for, if it lies in a range.
pub(crate) fn number<N>(word: &str, range: RangeInclusive<N>) -> Option<N>
where
    N: FromStr<Err = ParseIntError> + PartialOrd + Drop,
    ensures least { IfSome result (λ n. partial_le N.partial_cmp (range_inclusive_start range) n ≡ true) }
    ensures most { IfSome result (λ n. partial_le N.partial_cmp n (range_inclusive_end range) ≡ true) }
{
    if !word.bytes().all(|b| b.is_ascii_digit()) {
        return None;
    }
    word.parse().ok().filter(|n| range.contains(n))
}

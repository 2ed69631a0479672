// The script on standard input, a line at a time, as bytes.
ghost use Rattle.std.specs.Prelude.{◌≡◌, ◌≢◌, ℕ, ◌+◌, ◌-◌, ◌<◌, ◌≤◌, [], length, drop, slice_index, IfOk, vec_len, string_len};
ghost use Rattle.std.specs.String.{string_bytes};

use std::alloc::{AllocError, Global};
use std::io;
use std::io::{BufRead, BufReader, Read, Stdin};

// How many bytes of a line are kept.
const MOST_KEPT: usize = 4096;

// For how many bytes a line and its text find place at first, which is more than most commands have: the same for each, so that a line finds the memory that the one before it gave back, even where there is no other. Where there is not that much, they grow as they are written.
const USUAL: usize = 1024;

// How many characters of a line are printed.
const MOST_SHOWN: usize = 60;

// How many bytes these may be, with two dots behind them.
const MOST_SHORTENED: usize = 242;

// A line without its end, or the first part of one that was too long. Both are read alike, so a flag tells them apart.
#[derive(Drop)]
pub struct Line {
    bytes: Vec<u8>,
    long: bool,
    ghost kept: { vec_len bytes ≤ 4096 },
}

// An empty text with place for so many bytes, if there is memory for them.
fn roomy(heap: Global, bytes: usize) -> String
    ensures { string_bytes result ≡ [] }
{
    String::with_capacity(heap, bytes).unwrap_or_else(|_| String::new(heap))
}

impl Line {
    // Was there more of it than is kept?
    pub fn is_long(&self) -> bool {
        self.long
    }

    // Its words with one space between two; a byte that cannot be printed is a question mark.
    pub fn plain(&self, heap: Global) -> Result<String, AllocError>
        ensures { IfOk result (λ s. string_len s ≤ vec_len self.now.bytes) }
    {
        let mut text = roomy(heap, USUAL);
        let mut rest = self.bytes.as_slice();
        while let Some(start) = rest.iter().position(|b| *b != b' ') {
            if !text.is_empty() {
                text.push(' ')?;
            }
            rest = push_word(&mut text, &rest[start..])?;
        }
        Ok(text)
    }
}

// Writes a word at the end of a text, byte by byte: the line up to its first space.
// What is left of the line comes back.
fn push_word<'a>(text: &mut String, line: &'a [u8]) -> Result<&'a [u8], AllocError>
    ensures left { IfOk result (λ rest. rest.now ≡ drop (length line.now - length rest.now) line.now) }
    ensures word { IfOk result (λ rest. (k : ℕ) → k + length rest.now < length line.now → slice_index line.now k ≢ 32) }
    ensures ends { IfOk result (λ rest. 0 < length rest.now → slice_index rest.now 0 ≡ 32) }
    ensures writes { IfOk result (λ rest. string_len text.new + length rest.now ≡ string_len text.old + length line.now) }
{
    let mut rest = line;
    while let Some((&byte, behind)) = rest.split_first() {
        if byte == b' ' {
            break;
        }
        text.push(printable(byte))?;
        rest = behind;
    }
    Ok(rest)
}

// A byte of a word as it is printed.
fn printable(byte: u8) -> char
    ensures { (32 ≤ result) × (result < 127) }
{
    if byte.is_ascii_graphic() {
        char::from(byte)
    } else {
        '?'
    }
}

// The first part of a text, at most 60 characters and two dots, for an answer.
pub fn shortened(heap: Global, text: &str) -> Result<String, AllocError>
    ensures { IfOk result (λ s. string_len s ≤ 242) }
{
    let mut short = roomy(heap, MOST_SHORTENED);
    short.extend(text.chars().take(MOST_SHOWN))?;
    if short.len() < text.len() {
        short.push_str("..")?;
    }
    Ok(short)
}

// The next line, unless the input has ended. A last line needs no end of its own.
pub fn next_line(heap: Global, input: &mut BufReader<Stdin>) -> io::Result<Option<Line>> {
    let mut bytes = Vec::with_capacity(heap, USUAL).unwrap_or_else(|_| Vec::new(heap));
    let most = MOST_KEPT as u64 + 1;
    if input.by_ref().take(most).read_until(b'\n', &mut bytes)? == 0 {
        return Ok(None);
    }
    let _ = bytes.pop_if(|last| *last == b'\n');
    let long = bytes.len() > MOST_KEPT;
    if long {
        bytes.truncate(MOST_KEPT);
        input.skip_until(b'\n')?;
    }
    Ok(Some(Line { bytes, long }))
}

#[cfg(test)]
mod tests {
    use super::*;
    use std::test::Fail;

    // There is memory for a usual text at once, of a text of nothing and of one that is too long, and a line's words are parted by one space.
    #[test]
    fn finds_memory_for_texts(rt: HostRuntime) -> Result<(), Fail> {
        let heap = rt.alloc();
        let nothing = shortened(heap, "")?;
        assert_eq!(rt; nothing.as_str(), "");
        assert!(rt; nothing.capacity() >= MOST_SHORTENED);
        let long = "0123456789".repeat(heap, 7)?;
        let cut = shortened(heap, long.as_str())?;
        assert_eq!(rt; cut.len(), 62);
        assert!(rt; cut.as_str().ends_with("9.."));
        let empty = Line {
            bytes: Vec::new(heap),
            long: false,
        };
        let plain = empty.plain(heap)?;
        assert_eq!(rt; plain.as_str(), "");
        assert!(rt; plain.capacity() >= USUAL);
        let spoken = Line {
            bytes: vec![in heap; b' ', b's', b'a', b'y', b' ', b' ', 0, b' ']?,
            long: false,
        };
        assert_eq!(rt; spoken.plain(heap)?.as_str(), "say ?");
        Ok(())
    }
}

// The numbers of a text in hex.
ghost use Rattle.std.specs.Prelude.{◌≡◌, ℕ, ◌<◌, ◌≤◌, min, List, length, take, IfOk};
ghost use Rattle.std.specs.Io.KnownBytes.{Consumes, IsAtEnd};
ghost use Rattle.std.specs.Iterator.{YieldsFirst, item_count};
ghost use Rattle.replay.specs.Texts.{digit_of, numbers_in, over_within};

use reading::{Filled, read_full};
use std::alloc::{AllocError, Global};
use std::io;
use std::io::Read;

// Room for the longest text that is stored.
pub const TEXT: usize = 131072;

// The base that numbers are written in.
const BASE: u64 = 16;

// The value of a hex digit in lower case.
fn digit(c: u8) -> Option<u32>
    ensures { result ≡ digit_of c }
{
    match c {
        b'A'..=b'F' => None,
        _ => char::from(c).to_digit(16),
    }
}

// The numbers of a text, one after the other.
#[derive(Clone, Copy, Debug)]
struct Numerals<'a>(&'a [u8]);

impl<'a> Iterator for Numerals<'a> {
    type Item = u64;

    ghost next_gives = { YieldsFirst (λ s. numbers_in s.0.now) };

    ghost remaining = { item_count (λ s. numbers_in s.0.now) };

    #[tactic(auto, unfolding(crate::specs::Texts::numbers_in, crate::specs::Texts::numbers_after))]
    fn next(&mut self) -> Option<u64> {
        let mut value: Option<u64> = None;
        while let Some((c, rest)) = self.0.split_first() {
            self.0 = rest;
            match digit(*c) {
                Some(d) => {
                    let more = value.unwrap_or(0).wrapping_mul(BASE);
                    value = Some(more.wrapping_add(u64::from(d)));
                }
                None => {
                    if let Some(n) = value {
                        return Some(n);
                    }
                }
            }
        }
        None
    }
}

// The numbers of a text.
pub fn numbers(alloc: Global, text: &[u8]) -> Result<Vec<u64>, AllocError>
    ensures { IfOk result (λ v. v.items ≡ numbers_in text.now) }
{
    Numerals(text).collect(alloc)
}

// Puts the numbers of a text over the front of a list, as far as it reaches, and answers how many were put.
fn put(text: &[u8], numbers: &mut [u64]) -> usize
    ensures value { result ≡ min (length (numbers_in text.now)) (length numbers.old) }
    ensures numbers_after { numbers.new ≡ over_within (numbers_in text.now) numbers.old }
{
    let mut count = 0;
    for n in Numerals(text) {
        if count == numbers.len() {
            break;
        }
        numbers[count] = n;
        count += 1;
    }
    count
}

// What was read of a text: how many bytes of it stand at the front of a buffer, how many numbers were put, and whether it was read to its end or the
// buffer is full, or which error came before that.
#[derive(Drop)]
pub struct Loaded {
    pub bytes: usize,
    pub count: usize,
    pub whole: io::Result<()>,
}

// Reads to the front of a text, and puts the numbers of what was read over the front of a list.
// A reader that tells which bytes it has left loses those that stand at the front of the text.
pub fn read<R: Read>(from: &mut R, text: &mut [u8], numbers: &mut [u64]) -> Loaded
    ensures bytes_in_bounds { result.bytes ≤ length text.new }
    ensures count_value { result.count ≡ min (length (numbers_in (take result.bytes text.new))) (length numbers.old) }
    ensures numbers_after { numbers.new ≡ over_within (numbers_in (take result.bytes text.new)) numbers.old }
    ensures count_in_bounds { result.count ≤ length numbers.new }
    ensures bytes_read { Consumes (R.remaining from.old) (R.remaining from.new) (take result.bytes text.new) }
{
    let Filled {
        count: bytes,
        whole,
    } = read_full(from, text);
    let count = put(&text[..bytes], numbers);
    Loaded {
        bytes,
        count,
        whole,
    }
}

// Reads a text to its end, or as far as there is room for it, and gives its numbers.
// A reader that tells which bytes it has left loses just those of the text.
pub fn read_to_vec<R: Read>(alloc: Global, from: &mut R) -> io::Result<Vec<u64>>
    ensures { (text : List ℕ)
        × (length text ≤ TEXT)
        × Consumes (R.remaining from.old) (R.remaining from.new) text
        × IfOk result (λ v. (v.items ≡ numbers_in text) × (length text < TEXT → IsAtEnd (R.remaining from.new))) }
{
    let mut text = vec![in alloc; 0; TEXT]?;
    let Filled { count, whole } = read_full(from, &mut text);
    whole?;
    Ok(numbers(alloc, &text[..count])?)
}

#[cfg(test)]
mod tests {
    use super::*;

    // The same text from memory and from a reader, each into a list of its own.
    #[test]
    fn gives_the_numbers_of_a_text(rt: HostRuntime) -> io::Result<()> {
        let text: &[u8] = b"a 1f\n7x5a5a5a5a5a5a5a5a5 9";
        let want: &[u64] = &[10, 31, 7, 0xa5a5_a5a5_a5a5_a5a5];
        let alloc = rt.alloc();
        let listed = numbers(alloc, text)?;
        assert_eq!(rt; listed.as_slice(), want);
        let mut from = text;
        let loaded = read_to_vec(alloc, &mut from)?;
        assert_eq!(rt; loaded.as_slice(), want);
        Ok(())
    }
}

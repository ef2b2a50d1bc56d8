// Colours written as six hexadecimal digits.
#![tactic(auto)]

ghost use Rattle.std.specs.Prelude.{◌≡◌, ℕ, Bool, reverse, ◌+◌, ◌*◌, ◌<◌};
ghost use Rattle.std.specs.Option.{SomeIff};
ghost use Rattle.hex_colour.specs.Hex.{space, mark, drop_while, Computes, digit, six_digits, hex_to_rgb8};

use base::Refusal;
use color::Rgb8;

// A space, or one of the codes 9 to 13.
fn is_space(c: u8) -> bool
    ensures { result ≡ space c }
{
    matches!(c, 9..=13 | b' ')
}

// Whether a byte is `#`.
fn is_mark(c: u8) -> bool
    ensures { result ≡ mark c }
{
    c == b'#'
}

// The text from its first byte on that fails the test.
fn without_leading<F: Fn(u8) -> bool>(text: &[u8], test: F) -> &[u8]
    requires { F.IsAlwaysCallable test }
    ensures { (t : ℕ → Bool) → Computes F.Fn t test → result.now ≡ drop_while t text.now }
{
    let start = text.iter().take_while(|c| test(**c)).count();
    &text[start..]
}

// The text up to its last byte that is no white space.
fn without_trailing_space(text: &[u8]) -> &[u8]
    ensures { result.now ≡ reverse (drop_while space (reverse text.now)) }
{
    let spaces = text.iter().rev().take_while(|c| is_space(**c)).count();
    &text[..text.len() - spaces]
}

// The base of hex digits.
const BASE: u32 = 16;

// The value of a hex digit.
fn digit(c: u8) -> Option<u32>
    ensures { SomeIff result (digit c < 16) (digit c) }
{
    char::from(c).to_digit(BASE)
}

// The number that two digits write.
fn pair(high: u8, low: u8) -> Option<u8>
    ensures { SomeIff result ((digit high < 16) × (digit low < 16)) (digit high * 16 + digit low) }
{
    let number = digit(high)? * 16 + digit(low)?;
    Some(number as u8)
}

// Six digits make a colour.
fn six_digits(text: &[u8]) -> Option<Rgb8>
    ensures { result ≡ six_digits text.now }
{
    let [r1, r0, g1, g0, b1, b0] = text else {
        return None;
    };
    Some(Rgb8 {
        r: pair(*r1, *r0)?,
        g: pair(*g1, *g0)?,
        b: pair(*b1, *b0)?,
    })
}

// The colour that a text names: six hex digits, after white space at both ends and then leading `#` are dropped.
pub fn hex_to_rgb8(text: &[u8]) -> Result<Rgb8, Refusal>
    ensures { result ≡ hex_to_rgb8 text.now }
{
    let trimmed = without_trailing_space(without_leading(text, is_space));
    six_digits(without_leading(trimmed, is_mark)).ok_or(Refusal::NotHex)
}

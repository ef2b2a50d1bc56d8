// A text that is read from its front.
#![tactic(auto)]

pub mod head;
pub mod items;

ghost use Rattle.std.specs.Prelude.{◌≡◌, ◌==◌, ◌^◌, ◌<◌, ◌≤◌, length, position, IfOk, OnErr};
ghost use Rattle.std.specs.Char.{is_ascii_digit};
ghost use Rattle.std.specs.List.{prefix_len};
ghost use Rattle.silk_reader.specs.Reader.{bytes, proper, value, decimal_number, natural, negative, cell, number_line, switch_line};
ghost use Rattle.silk_reader.specs.Answers.{answer, Decimal};
ghost use Rattle.silk_reader.specs.Lines.{hex_line};

use base::Refusal;
use color::Rgb8;
use hex_colour::hex_to_rgb8;

// What is left of a text.
#[derive(Clone, Copy)]
pub struct Cursor<'a> {
    rest: &'a [u8],
}

// How many digits a text begins with.
fn digits_len(text: &[u8]) -> usize
    ensures value { result ≡ prefix_len is_ascii_digit text.now }
    ensures within { result ≤ length text.now }
{
    text.iter().take_while(|c| c.is_ascii_digit()).count()
}

// How long the line is that a text begins with, if its end is there.
fn line_len(text: &[u8]) -> Option<usize>
    ensures { result ≡ position (λ c. c == 10) text.now }
{
    text.iter().position(|c| *c == b'\n')
}

// The most digits that a number is written with.
const MOST_DIGITS: usize = 9;

// Whether digits write a number: one to nine of them, with no leading zero.
#[tactic(auto, unfolding(crate::specs::Reader::proper))]
fn proper(digits: &[u8]) -> bool
    ensures { result ≡ proper digits.now }
{
    match digits {
        [] => false,
        [_] => true,
        [first, ..] => *first != b'0' && digits.len() <= MOST_DIGITS,
    }
}

// The number that at most nine digits write.
fn value(digits: &[u8]) -> u32
    requires { Decimal digits.now }
    ensures value { result ≡ value 0 digits.now }
    ensures small { result < 10 ^ 9 }
{
    let mut v = 0;
    for d in digits {
        v = v * 10 + u32::from(*d - b'0');
    }
    v
}

// The number that no minus may stand before.
const NEVER_NEGATIVE: u32 = 0;

impl<'a> Cursor<'a> {
    pub fn new(text: &'a [u8]) -> Cursor<'a>
        ensures { result.rest.now ≡ text.now }
    {
        Cursor { rest: text }
    }

    // What is left of the text: a cursor over it reads on from here.
    pub fn rest(&self) -> &'a [u8]
        ensures { result.now ≡ self.now.rest.now }
    {
        let Self { rest } = self;
        *rest
    }

    pub fn is_empty(&self) -> bool
        ensures { result ≡ (length self.now.rest.now == 0) }
    {
        self.rest.is_empty()
    }

    // Past the bytes of a key. A refusal leaves the text as it was, as in each public function below.
    #[tactic(auto, using(crate::proofs::Scanning::bytes_cases))]
    pub fn bytes(&mut self, key: &[u8]) -> Result<(), Refusal>
        ensures value { answer result self.new.rest.now ≡ bytes key.now self.old.rest.now }
        ensures err { OnErr result (self.new.rest.now ≡ self.old.rest.now) }
    {
        self.rest = self.rest.strip_prefix(key).ok_or(Refusal::Malformed)?;
        Ok(())
    }

    // A number of one to nine digits, with no leading zero.
    #[tactic(auto, using(crate::proofs::Scanning::number_cut, crate::proofs::Scanning::decimal_front), unfolding(crate::specs::Reader::proper_number))]
    pub fn decimal_number(&mut self) -> Result<u32, Refusal>
        ensures value { answer result self.new.rest.now ≡ decimal_number self.old.rest.now }
        ensures err { OnErr result (self.new.rest.now ≡ self.old.rest.now) }
        ensures small { IfOk result (λ n. n < 10 ^ 9) }
    {
        let (digits, rest) = self.rest.split_at(digits_len(self.rest));
        if !proper(digits) {
            return Err(Refusal::Malformed);
        }
        self.rest = rest;
        Ok(value(digits))
    }

    // A cell of 0 or more.
    #[tactic(auto, unfolding(crate::specs::Reader::natural))]
    fn natural(&mut self) -> Result<i32, Refusal>
        ensures { answer result self.new.rest.now ≡ natural self.old.rest.now }
    {
        let n = self.decimal_number()?;
        Ok(n as i32)
    }

    // A cell below 0, from its digits on; -0 is none.
    #[tactic(auto, unfolding(crate::specs::Reader::negative, crate::specs::Reader::minus))]
    fn negative(&mut self) -> Result<i32, Refusal>
        ensures { answer result self.new.rest.now ≡ negative self.old.rest.now }
    {
        let n = self.decimal_number()?;
        if n == NEVER_NEGATIVE {
            return Err(Refusal::Malformed);
        }
        Ok(-(n as i32))
    }

    // A cell: a number that may carry a minus.
    #[tactic(auto, using(crate::proofs::Scanning::minus_cases), unfolding(crate::specs::Reader::cell))]
    pub fn cell(&mut self) -> Result<i32, Refusal>
        ensures value { answer result self.new.rest.now ≡ cell self.old.rest.now }
        ensures err { OnErr result (self.new.rest.now ≡ self.old.rest.now) }
    {
        let mut next = *self;
        let cell = if next.bytes(b"-").is_ok() {
            next.negative()?
        } else {
            next.natural()?
        };
        *self = next;
        Ok(cell)
    }

    // A line of a key and a number.
    #[tactic(auto, unfolding(crate::specs::Reader::number_line, crate::specs::Reader::newline))]
    pub fn number_line(&mut self, key: &[u8]) -> Result<u32, Refusal>
        ensures value { answer result self.new.rest.now ≡ number_line key.now self.old.rest.now }
        ensures err { OnErr result (self.new.rest.now ≡ self.old.rest.now) }
        ensures small { IfOk result (λ n. n < 10 ^ 9) }
    {
        let mut next = *self;
        next.bytes(key)?;
        let n = next.decimal_number()?;
        next.bytes(b"\n")?;
        *self = next;
        Ok(n)
    }

    // A line of a key and a switch, 0 or 1.
    #[tactic(auto, unfolding(crate::specs::Reader::switch_line))]
    pub fn switch_line(&mut self, key: &[u8]) -> Result<bool, Refusal>
        ensures value { answer result self.new.rest.now ≡ switch_line key.now self.old.rest.now }
        ensures err { OnErr result (self.new.rest.now ≡ self.old.rest.now) }
    {
        let mut next = *self;
        let on = match next.number_line(key)? {
            0 => false,
            1 => true,
            _ => return Err(Refusal::Malformed),
        };
        *self = next;
        Ok(on)
    }

    // The rest of the line as a hex colour.
    #[tactic(auto, using(crate::proofs::Scanning::hex_none, crate::proofs::Scanning::hex_at))]
    pub fn hex_line(&mut self) -> Result<Rgb8, Refusal>
        ensures value { answer result self.new.rest.now ≡ hex_line self.old.rest.now }
        ensures err { OnErr result (self.new.rest.now ≡ self.old.rest.now) }
    {
        let end = line_len(self.rest).ok_or(Refusal::Malformed)?;
        let (value, rest) = self.rest.split_at(end);
        let colour = hex_to_rgb8(value)?;
        self.rest = &rest[1..];
        Ok(colour)
    }
}

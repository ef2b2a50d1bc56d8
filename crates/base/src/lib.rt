// What every promise is written with: numbers below n taken as places, outputs filled from the front, and refusals.
#![tactic(auto)]

ghost use Rattle.std.specs.Prelude.{◌≡◌};
ghost use Rattle.base.specs.Numbers.{number};

// Why a call is refused, in the order of the table of refusals.
#[derive(Clone, Copy, Debug, PartialEq, Eq)]
pub enum Refusal {
    // a side above 512
    SideTooLong,
    // a lent list shorter than needed
    ListTooShort,
    // a work area below 8 numbers for each needed cell
    WorkTooShort,
    // a list or a palette that has not the length that it must have, or too many entries
    WrongLength,
    // a double of a colour that is NaN or beyond 1024 either way
    ColourOutOfRange,
    // a setting that is NaN or out of range
    SettingOutOfRange,
    // a cell that names no entry
    NoSuchEntry,
    // no entry to choose from
    NoEntries,
    // text that is not six hex digits
    NotHex,
    // a malformed text
    Malformed,
}

impl Refusal {
    // Its number in the table.
    pub fn number(self) -> u8
        ensures { result ≡ number self }
    {
        self as u8 + 1
    }
}

// What an element of a list is: a byte, a word, a cell or a double.
ghost use Rattle.std.specs.Prelude.{◌≡◌, ℕ, ◌%◌, ◌^◌, to_bits};
ghost use Rattle.std.specs.Float.{binary64};
ghost use Rattle.replay.specs.Kinds.{as_byte, as_word, as_cell, as_double, cell_bits, double_bits};

use std::num::{f64_from_bits_with_nan, f64_to_bits_with_nan};

// Which element a number of the stream stands for, and the number that is an element's bits: elements with the same bits agree.
pub trait Kind: Copy {
    ghost read: { ℕ → Self };

    ghost bits: { Self → ℕ };

    fn from_number(n: u64) -> Self
        ensures { result ≡ read n };

    fn to_number(self) -> u64
        ensures { result ≡ bits self };
}

impl Kind for u8 {
    ghost read = { as_byte };

    ghost bits = { λ x. x };

    fn from_number(n: u64) -> u8 {
        (n % (1 << 8)) as u8
    }

    fn to_number(self) -> u64 {
        u64::from(self)
    }
}

impl Kind for u32 {
    ghost read = { as_word };

    ghost bits = { λ x. x };

    fn from_number(n: u64) -> u32 {
        (n % (1 << 32)) as u32
    }

    fn to_number(self) -> u64 {
        u64::from(self)
    }
}

impl Kind for i32 {
    ghost read = { as_cell };

    ghost bits = { cell_bits };

    fn from_number(n: u64) -> i32 {
        u32::from_number(n).cast_signed()
    }

    fn to_number(self) -> u64 {
        u64::from(self.cast_unsigned())
    }
}

impl Kind for f64 {
    ghost read = { as_double };

    ghost bits = { double_bits };

    fn from_number(n: u64) -> f64 {
        f64_from_bits_with_nan(n)
    }

    fn to_number(self) -> u64 {
        f64_to_bits_with_nan(self)
    }
}

// Printing: a result's text, or a refusal's, is put to the front of a buffer.
#![tactic(auto)]

ghost use Rattle.std.specs.Prelude.{◌≡◌, [], ◌∷◌, ◌+◌, ◌*◌, ◌^◌, ◌≤◌, ◌<◌, length};
ghost use Rattle.rules.specs.Entries.{SizesInRange};
ghost use Rattle.silk_print.specs.Print.{numeral, signed_numeral, hex_digit, hex_byte, hex_colour, number_text, index_text, clipped_text, head_text, colour_text, colours_text, cell_text, cells_text, row_text, rows_text, result_text, refusal_text, lengths_fit, result_fits, refusal_fits, printed_answer, printed_buffer, Put, HasRoom, Printable, room_for, sizes_text};

use base::Refusal;
use color::Rgb8;
use color::cielab::lab_to_rgb8_one;
use itoa::Buffer;
use rules::{Entries, Facts};

// The base that hex digits are of.
const BASE: u32 = 16;

// A hex digit, lower case.
fn digit(d: u8) -> u8
    requires { d < 16 }
    ensures { result ≡ hex_digit d }
{
    char::from_digit(u32::from(d), BASE).unwrap() as u8
}

// The column before which no comma stands.
const FIRST_COLUMN: usize = 0;

// A buffer, and the place in it where the next byte goes.
#[derive(Drop)]
struct Printer<'a> {
    out: &'a mut [u8],
    at: usize,
}

impl<'a> Printer<'a> {
    // Printing from the front of a buffer on.
    fn new(out: &'a mut [u8]) -> Printer<'a>
        ensures buffer { result.out.now ≡ out.old }
        ensures front { result.at ≡ 0 }
        ensures same { result.out.ghost_name ≡ out.entry.ghost_name }
    {
        Printer { out, at: 0 }
    }

    // One byte.
    fn put_byte(&mut self, b: u8)
        requires { HasRoom 1 self.old }
        ensures { Put 1 (b ∷ []) self.old self.new }
    {
        self.out[self.at] = b;
        self.at += 1;
    }

    // Bytes, one after the other.
    fn put_bytes(&mut self, bytes: &[u8])
        requires { HasRoom (length bytes.now) self.old }
        ensures { Put (length bytes.now) bytes.now self.old self.new }
    {
        let end = self.at + bytes.len();
        self.out[self.at..end].copy_from_slice(bytes);
        self.at = end;
    }

    // A number in decimal.
    fn put_number(&mut self, n: usize)
        requires { HasRoom (length (numeral n)) self.old }
        ensures { Put (length (numeral n)) (numeral n) self.old self.new }
    {
        let mut digits = Buffer::new();
        self.put_bytes(digits.format(n).as_bytes());
    }

    // Two hex digits.
    fn put_hex_byte(&mut self, b: u8)
        requires { HasRoom 2 self.old }
        ensures { Put 2 (hex_byte b) self.old self.new }
    {
        self.put_byte(digit(b / 16));
        self.put_byte(digit(b % 16));
    }

    // Six hex digits.
    fn put_hex_colour(&mut self, c: Rgb8)
        requires { HasRoom 6 self.old }
        ensures { Put 6 (hex_colour c) self.old self.new }
    {
        self.put_hex_byte(c.r);
        self.put_hex_byte(c.g);
        self.put_hex_byte(c.b);
    }

    // The line of a colour.
    fn put_colour_line(&mut self, c: Rgb8)
        requires { HasRoom 14 self.old }
        ensures { Put 14 (colour_text c) self.old self.new }
    {
        self.put_bytes(b"colour=");
        self.put_hex_colour(c);
        self.put_byte(b'\n');
    }

    // A cell in decimal, after a minus if it is below 0.
    fn put_signed(&mut self, c: i32)
        requires { HasRoom 11 self.old }
        ensures { Put 11 (signed_numeral c) self.old self.new }
    {
        let mut digits = Buffer::new();
        self.put_bytes(digits.format(c).as_bytes());
    }

    // The cell of column x, after a comma unless it is the first.
    fn put_cell(&mut self, x: usize, c: i32)
        requires { HasRoom 12 self.old }
        ensures { Put 12 (cell_text x c) self.old self.new }
    {
        if x != FIRST_COLUMN {
            self.put_byte(b',');
        }
        self.put_signed(c);
    }

    // The cells of a row.
    fn put_cells(&mut self, row: &[i32])
        requires { HasRoom (length row.now * 12) self.old }
        ensures { Put (length row.now * 12) (cells_text row.now 0 (length row.now)) self.old self.new }
    {
        for (x, c) in row.iter().enumerate() {
            self.put_cell(x, *c);
        }
    }

    // The line of a row.
    fn put_row(&mut self, row: &[i32])
        requires { HasRoom (5 + 12 * length row.now) self.old }
        ensures { Put (5 + 12 * length row.now) (row_text row.now 0 (length row.now)) self.old self.new }
    {
        self.put_bytes(b"row=");
        self.put_cells(row);
        self.put_byte(b'\n');
    }

    // The lines of all rows.
    fn put_rows(&mut self, cells: &[i32], h: usize, w: usize)
        requires { (h * w ≤ length cells.now) × HasRoom (h * (5 + 12 * w)) self.old }
        ensures { Put (h * (5 + 12 * w)) (rows_text cells.now h w) self.old self.new }
    {
        for y in 0..h {
            let from = y * w;
            self.put_row(&cells[from..from + w]);
        }
    }

    // The lines of all colours.
    fn put_colours(&mut self, entries: Entries<'_>)
        requires { HasRoom (entries.k * 14) self.old }
        ensures { let e = entries.entry in Put (e.k * 14) (colours_text e.lab.now e.k) self.old self.new }
    {
        for i in 0..entries.k {
            self.put_colour_line(lab_to_rgb8_one(entries.colour(i)));
        }
    }

    // A line of a key and a number.
    fn put_number_line(&mut self, key: &[u8], n: usize)
        requires { (n < 10 ^ 10) × HasRoom (length key.now + 11) self.old }
        ensures { Put (length key.now + 11) (number_text key.now n) self.old self.new }
    {
        self.put_bytes(key);
        self.put_number(n);
        self.put_byte(b'\n');
    }

    // The line of the outline's index.
    fn put_index(&mut self, index: Option<u32>)
        requires { HasRoom 25 self.old }
        ensures { Put 25 (index_text index) self.old self.new }
    {
        match index {
            None => self.put_bytes(b"outline_index=none\n"),
            Some(i) => self.put_number_line(b"outline_index=", i as usize),
        }
    }

    // The line that tells whether the outline was clipped.
    fn put_clipped(&mut self, clipped: bool)
        requires { HasRoom 18 self.old }
        ensures { Put 18 (clipped_text clipped) self.old self.new }
    {
        if clipped {
            return self.put_bytes(b"outline_clipped=1\n");
        }
        self.put_bytes(b"outline_clipped=0\n");
    }

    // The first three heads.
    fn put_sizes(&mut self, facts: Facts)
        requires { SizesInRange facts × HasRoom 54 self.old }
        ensures { Put 54 (sizes_text facts) self.old self.new }
    {
        self.put_number_line(b"height=", facts.height);
        self.put_number_line(b"width=", facts.width);
        self.put_number_line(b"colours=", facts.colours);
    }

    // The five heads.
    fn put_head(&mut self, facts: Facts)
        requires { SizesInRange facts × HasRoom 97 self.old }
        ensures { Put 97 (head_text facts) self.old self.new }
    {
        self.put_sizes(facts);
        self.put_index(facts.outline_index);
        self.put_clipped(facts.outline_clipped);
    }

    // A result, once its lists are known to hold it.
    fn put_result(&mut self, facts: Facts, palette: &[f64], cells: &[i32])
        requires { Printable facts palette.now cells.now self.old }
        ensures { Put (room_for facts) (result_text facts palette.now cells.now) self.old self.new }
    {
        self.put_head(facts);
        self.put_colours(Entries {
            lab: palette,
            k: facts.colours,
        });
        self.put_rows(cells, facts.height, facts.width);
    }
}

// Whether so many doubles, cells and bytes are enough for a result.
fn lengths_fit(facts: Facts, doubles: usize, cells: usize, room: usize) -> bool
    ensures { result ≡ lengths_fit facts doubles cells room }
{
    let h = facts.height;
    let w = facts.width;
    let k = facts.colours;
    h <= 514
        && w <= 514
        && k <= 256
        && 3 * k <= doubles
        && h * w <= cells
        && 97 + 14 * k + h * (5 + 12 * w) <= room
}

// Prints a result to the front of a buffer. Lists that do not hold it are refused as too short, with the buffer as it was.
pub fn print_result(
    facts: Facts,
    palette: &[f64],
    cells: &[i32],
    out: &mut [u8],
) -> Result<usize, Refusal>
    ensures value { result ≡ printed_answer (result_fits facts palette.now cells.now out.old) (result_text facts palette.now cells.now) }
    ensures out_after { out.new ≡ printed_buffer (result_fits facts palette.now cells.now out.old) (result_text facts palette.now cells.now) out.old }
{
    if !lengths_fit(facts, palette.len(), cells.len(), out.len()) {
        return Err(Refusal::ListTooShort);
    }
    let mut to = Printer::new(out);
    to.put_result(facts, palette, cells);
    Ok(to.at)
}

// Prints a refusal's number to the front of a buffer. Less than twelve bytes are refused as too short, with the buffer as it was.
pub fn print_refusal(n: u8, out: &mut [u8]) -> Result<usize, Refusal>
    ensures value { result ≡ printed_answer (refusal_fits out.old) (refusal_text n) }
    ensures out_after { out.new ≡ printed_buffer (refusal_fits out.old) (refusal_text n) out.old }
{
    if out.len() < 12 {
        return Err(Refusal::ListTooShort);
    }
    let mut to = Printer::new(out);
    to.put_bytes(b"refused=");
    to.put_number(usize::from(n));
    to.put_byte(b'\n');
    Ok(to.at)
}

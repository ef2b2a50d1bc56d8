// The whole text: the head, then colours and rows, which fill lent lists.
ghost use Rattle.std.specs.Prelude.{◌≡◌, ◌+◌, ◌*◌, ◌≤◌, [], length, take};
ghost use Rattle.silk_reader.specs.Reader.{series, cell_at};
ghost use Rattle.silk_text.specs.Format.{colour_lines, row_line, row_lines, lists, file, parse};
ghost use Rattle.rules.specs.Sheet.{over};
ghost use Rattle.silk_text.specs.Answers.{onto, got_list, lent, got_file, read_into, read_answer, read_palette, read_cells};

use base::Refusal;
use color::cielab::rgb8_to_lab_one;
use rules::recolour;
use silk_reader::Cursor;
use silk_reader::head::Head;

// Colour lines, into the front of a palette.
fn read_colours(text: &mut Cursor, colours: usize, palette: &mut [f64]) -> Result<(), Refusal>
    requires { 3 * colours ≤ length palette.old }
    ensures { got_list result palette.new text.new.rest.now ≡ onto palette.old (colour_lines colours) text.old.rest.now }
{
    for i in 0..colours {
        let c = text.colour_line()?;
        recolour(palette, i, rgb8_to_lab_one(c));
    }
    Ok(())
}

// The cells of a row.
fn read_cells(text: &mut Cursor, row: &mut [i32]) -> Result<(), Refusal>
    ensures { got_list result row.new text.new.rest.now ≡ series 0 (length row.old) cell_at text.old.rest.now }
{
    for (x, cell) in row.iter_mut().enumerate() {
        *cell = text.cell_at(x)?;
    }
    Ok(())
}

// A row.
#[tactic(auto, unfolding(crate::specs::Format::row_line, silk_reader::specs::Reader::codes, silk_reader::specs::Reader::newline))]
fn read_row(text: &mut Cursor, row: &mut [i32]) -> Result<(), Refusal>
    ensures { got_list result row.new text.new.rest.now ≡ row_line (length row.old) text.old.rest.now }
{
    text.bytes(b"row=")?;
    read_cells(text, row)?;
    text.bytes(b"\n")
}

// All rows, into the front of the cells.
fn read_rows(text: &mut Cursor, h: usize, w: usize, cells: &mut [i32]) -> Result<(), Refusal>
    requires { h * w ≤ length cells.old }
    ensures { got_list result cells.new text.new.rest.now ≡ onto cells.old (row_lines h w) text.old.rest.now }
{
    for y in 0..h {
        read_row(text, &mut cells[y * w..(y + 1) * w])?;
    }
    Ok(())
}

// The lines after the head's.
#[tactic(auto, using(crate::proofs::Whole::lists_steps))]
fn read_lists(
    text: &mut Cursor,
    h: Head,
    palette: &mut [f64],
    cells: &mut [i32],
) -> Result<Head, Refusal>
    requires { (3 * h.colours ≤ length palette.old) × (h.height * h.width ≤ length cells.old) }
    ensures { got_file result palette.new cells.new text.new.rest.now ≡ lent palette.old cells.old (lists h text.old.rest.now) }
{
    read_colours(text, h.colours, palette)?;
    read_rows(text, h.height, h.width, cells)?;
    Ok(h)
}

#[tactic(auto, using(crate::proofs::Whole::file_steps))]
fn read_file(text: &mut Cursor, palette: &mut [f64], cells: &mut [i32]) -> Result<Head, Refusal>
    requires { (768 ≤ length palette.old) × (1600 ≤ length cells.old) }
    ensures { got_file result palette.new cells.new text.new.rest.now ≡ lent palette.old cells.old (file text.old.rest.now) }
{
    let h = text.head()?;
    read_lists(text, h, palette, cells)
}

// The most bytes of a text that are read.
const MOST_BYTES: usize = 65536;

// The whole text: nothing may follow the last row.
fn read_text(text: &[u8], palette: &mut [f64], cells: &mut [i32]) -> Result<Head, Refusal>
    requires { (768 ≤ length palette.old) × (1600 ≤ length cells.old) }
    ensures { got_file result palette.new cells.new [] ≡ lent palette.old cells.old (parse text.now) }
{
    let (part, beyond) = text.split_at(text.len().min(MOST_BYTES));
    let mut rest = Cursor::new(part);
    let h = read_file(&mut rest, palette, cells)?;
    let left_over = !rest.is_empty();
    if left_over || !beyond.is_empty() {
        return Err(Refusal::Malformed);
    }
    Ok(h)
}

// Copies the first n elements of a list to the front of another.
fn copy_front<T: Copy>(from: &[T], n: usize, to: &mut [T])
    requires { (n ≤ length from.now) × (n ≤ length to.old) }
    ensures { to.new ≡ over (take n from.now) to.old }
{
    to[..n].copy_from_slice(&from[..n]);
}

// Reads a text: its head is the answer, its colours, as doubles, go to the front of the palette, its cells to the front of the cells.
// Lent lists that do not hold 256 colours and 40 by 40 cells are refused. A refusal leaves both as they were.
#[tactic(auto, unfolding(crate::specs::Answers::read_into, crate::specs::Answers::read_answer, crate::specs::Answers::read_palette, crate::specs::Answers::read_cells))]
pub fn read(text: &[u8], palette: &mut [f64], cells: &mut [i32]) -> Result<Head, Refusal>
    ensures value { result ≡ read_answer (read_into text.now palette.old cells.old) }
    ensures palette_after { palette.new ≡ read_palette (read_into text.now palette.old cells.old) palette.old }
    ensures cells_after { cells.new ≡ read_cells (read_into text.now palette.old cells.old) cells.old }
{
    if palette.len() < 768 || cells.len() < 1600 {
        return Err(Refusal::ListTooShort);
    }
    let mut colours = [0.0; 768];
    let mut sheet = [0i32; 1600];
    let h = read_text(text, &mut colours, &mut sheet)?;
    let doubles = 3 * h.colours;
    copy_front(&colours, doubles, palette);
    let places = h.height * h.width;
    copy_front(&sheet, places, cells);
    Ok(h)
}

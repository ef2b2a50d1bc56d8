// What the program `silk` does: it reads a text, runs its sheet, and writes what comes of it.
#![tactic(auto)]

ghost use Rattle.std.specs.Prelude.{◌<◌, ◌≡◌, length, take, OnOk};
ghost use Rattle.std.specs.Result.{result_and};
ghost use Rattle.std.specs.Io.KnownBytes.{IsAtEnd, Appends, Consumes};
ghost use Rattle.rules.specs.Sheet.{over};
ghost use Rattle.silk_print.specs.Print.{refusal_text};
ghost use Rattle.silk_reply.specs.Reply.{call_of, sheet_text, silk_text, Ran, Front};

use base::Refusal;
use postprocess::run;
use reading::{Filled, read_full};
use rules::Processed;
use silk_print::{print_refusal, print_result};
use silk_reader::head::Head;
use silk_text::sheet::read;
use std::io;
use std::io::{Read, Write};

// One byte more than a text may have.
pub const TEXT: usize = 65537;

// Room for every text that is printed.
pub const ROOM: usize = 32768;

// 256 entries of a palette.
const DOUBLES: usize = 768;

// 42 by 42 cells: 40 by 40, padded.
const CELLS: usize = 1764;

// The work area: 8 numbers for each cell.
const WORK: usize = 8 * CELLS;

// Prints a refusal's number: there is always room for it.
fn put_refusal(n: u8, out: &mut [u8; ROOM]) -> usize
    ensures { Front (refusal_text n) out.old out.new result }
{
    print_refusal(n, out).unwrap_or(0)
}

// `run` on a sheet that was read.
fn run_sheet(
    h: Head,
    palette: &mut [f64; DOUBLES],
    cells: &mut [i32; CELLS],
) -> Result<Processed, Refusal>
    ensures { Ran (call_of h palette.old cells.old) result palette.new cells.new }
{
    let config = h.config;
    let mut work = [0u32; WORK];
    run(
        cells,
        h.height,
        h.width,
        palette,
        h.colours,
        config,
        h.saturated,
        h.fixed,
        h.margin,
        &mut work,
    )
}

// Runs a sheet that was read, and prints what comes of it.
fn put_sheet(
    h: Head,
    palette: &mut [f64; DOUBLES],
    cells: &mut [i32; CELLS],
    out: &mut [u8; ROOM],
) -> usize
    ensures { Front (sheet_text h palette.old cells.old) out.old out.new result }
{
    match run_sheet(h, palette, cells) {
        Ok(done) => print_result(done.facts, palette, cells, out).unwrap_or(0),
        Err(reason) => put_refusal(reason.number(), out),
    }
}

// Puts what the program prints for a text at the front of a buffer, and answers how many bytes that is.
pub fn respond(text: &[u8], out: &mut [u8; ROOM]) -> usize
    ensures value { result ≡ length (silk_text text.now) }
    ensures out_after { out.new ≡ over (silk_text text.now) out.old }
{
    let mut palette = [0.0; DOUBLES];
    let mut cells = [0i32; CELLS];
    match read(text, &mut palette, &mut cells) {
        Ok(h) => put_sheet(h, &mut palette, &mut cells, out),
        Err(refusal) => put_refusal(refusal.number(), out),
    }
}

// What `serve` did: how many bytes it read to the front of the text, how many of the answer it handed on, whether reading came to the end of the text
// or of what can be read, and whether all that it handed on was written.
#[derive(Drop)]
pub struct Served {
    pub read: usize,
    pub put: usize,
    pub whole: io::Result<()>,
    pub written: io::Result<()>,
}

impl Served {
    // Whether the text was read to its end and the answer was written, or the first error of the two.
    pub fn done(self) -> io::Result<()>
        ensures { result ≡ result_and self.whole self.written }
    {
        self.whole.and(self.written)
    }
}

// Reads a text, and writes what comes of it. A read that fails counts as the end of the text.
// A reader that tells which bytes it has left loses those that stand at the front of the text, and a writer that tells what it holds gains the answer.
pub fn serve<R: Read, W: Write>(
    from: &mut R,
    to: &mut W,
    text: &mut [u8; TEXT],
    out: &mut [u8; ROOM],
) -> Served
    ensures put_value { result.put ≡ length (silk_text (take result.read text.new)) }
    ensures out_after { out.new ≡ over (silk_text (take result.read text.new)) out.old }
    ensures bytes_read { Consumes (R.remaining from.old) (R.remaining from.new) (take result.read text.new) }
    ensures text_end { OnOk result.whole (result.read < 65537 → IsAtEnd (R.remaining from.new)) }
    ensures bytes_written { OnOk result.written (Appends (W.contents to.old) (W.contents to.new) (silk_text (take result.read text.new))) }
{
    let Filled { count: n, whole } = read_full(from, text);
    let input: &[u8] = text;
    let count = respond(&input[..n], out);
    let output: &[u8] = out;
    let written = to.write_all(&output[..count]);
    Served {
        read: n,
        put: count,
        whole,
        written,
    }
}

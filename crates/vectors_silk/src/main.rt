// Replays the stored texts of the program `silk`, each by way of files. Prints each case whose answer differs, and how many cases there are.
// A case is three lines: its name, the text, and the answer. In a line \n stands for byte 10, \xHH for the byte of these hex digits, and <C*NNNNNN> for so many bytes C.
#![tactic(auto)]

ghost use Rattle.std.specs.Prelude.{◌≡◌, ◌-◌, ◌<◌, ◌≤◌, length, IfOk};

use reading::{Filled, read_full};
use replay::{Total, report_total};
use silk_reply::{ROOM, TEXT, serve};
use std::alloc::{AllocError, Global};
use std::io::Write;
use std::rt::Files;
use std::{fs, io};

// Room for the file.
const CASES: usize = 262144;

// Room for what a line stands for.
const LINE: usize = 131072;

// The value of a digit, in decimal or in lower-case hex, 0 for any other byte.
fn digit(c: u8) -> u8
    ensures { result < 16 }
{
    match c {
        b'A'..=b'F' => 0,
        _ => char::from(c).to_digit(16).unwrap_or(0) as u8,
    }
}

// So many times a byte, which some bytes of a line stand for, and how many bytes these are.
#[derive(Clone, Copy, Debug, PartialEq, Eq)]
struct Run {
    byte: u8,
    many: usize,
    taken: usize,
}

// What is left of the cases.
#[derive(Clone, Copy, Debug)]
struct Cases<'a>(&'a [u8]);

impl<'a> Cases<'a> {
    // The byte at a place, and a line end past the last.
    fn at(self, i: usize) -> u8 {
        self.0.get(i).copied().unwrap_or(b'\n')
    }

    // The number that six digits write.
    fn number(self) -> usize {
        (3..9).fold(0, |n: usize, i| {
            n.saturating_mul(10)
                .saturating_add(usize::from(digit(self.at(i))))
        })
    }

    // What the first bytes stand for.
    fn run(self) -> Run
        ensures { 0 < result.taken }
    {
        match self.at(0) {
            b'\\' if self.at(1) == b'n' => Run {
                byte: b'\n',
                many: 1,
                taken: 2,
            },
            b'\\' => Run {
                byte: digit(self.at(2)) * 16 + digit(self.at(3)),
                many: 1,
                taken: 4,
            },
            b'<' => Run {
                byte: self.at(1),
                many: self.number(),
                taken: 10,
            },
            byte => Run {
                byte,
                many: 1,
                taken: 1,
            },
        }
    }

    // Goes past so many bytes.
    fn pass(&mut self, count: usize)
        ensures { length self.new.0.now ≡ length self.old.0.now - count }
    {
        self.0 = self.0.get(count..).unwrap_or(&[]);
    }

    // Reads a line, and gives the bytes that it stands for, as far as there is room for them.
    fn line(&mut self, alloc: Global) -> Result<Vec<u8>, AllocError>
        ensures { IfOk result (λ _. length self.new.0.now ≤ length self.old.0.now - 1) }
    {
        let mut bytes = Vec::new(alloc);
        while !self.0.is_empty() && self.at(0) != b'\n' {
            let Run { byte, many, taken } = self.run();
            let len = usize::min(bytes.len().saturating_add(many), LINE);
            bytes.resize(len, byte)?;
            self.pass(taken);
        }
        self.pass(1);
        Ok(bytes)
    }
}

// Whether the program's work gives this answer to a text. Both go by way of files.
fn gives<R: Files + AllocGlobal>(rt: &R, text: &[u8], answer: &[u8]) -> io::Result<bool> {
    fs::write(rt, "text", text)?;
    serve_files(rt)?;
    let got = fs::read(rt, "answer")?;
    Ok(got.as_slice() == answer)
}

// The program's work from the one file to the other.
fn serve_files<F: Files>(files: &F) -> io::Result<()> {
    let mut text = [0u8; TEXT];
    let mut out = [0u8; ROOM];
    let mut from = fs::open(files, "text")?;
    let mut to = fs::create(files, "answer")?;
    serve(&mut from, &mut to, &mut text, &mut out).done()
}

// Replays the next case, and prints its name if its answer differs. The answer is whether it does.
fn case_differs<R: Files + AllocGlobal, W: Write>(
    rt: &R,
    to: &mut W,
    cases: &mut Cases<'_>,
) -> io::Result<bool>
    ensures { IfOk result (λ _. length cases.new.0.now ≤ length cases.old.0.now - 1) }
{
    let alloc = rt.alloc();
    let name = cases.line(alloc)?;
    let text = cases.line(alloc)?;
    let answer = cases.line(alloc)?;
    if gives(rt, &text, &answer)? {
        return Ok(false);
    }
    to.write_all(&name)?;
    to.write_all(b" differs\n")?;
    Ok(true)
}

// Replays the cases of a file that was read to the front of a buffer; the last so many bytes of that are spare. The answer is whether none differs.
fn replay_all<R: Files + AllocGlobal, W: Write>(
    rt: &R,
    to: &mut W,
    buffer: &[u8],
    spare: usize,
) -> io::Result<bool> {
    let mut cases = Cases(buffer);
    let mut total = Total::default();
    while cases.0.len() > spare {
        total.add(case_differs(rt, to, &mut cases)?);
    }
    report_total(to, b"silk_cases.txt", total)?;
    Ok(total.none_differs())
}

// Replays the file of cases.
fn main(rt: HostRuntime) -> io::Result<()> {
    let mut buffer = vec![in rt.alloc(); 0; CASES]?;
    let mut file = fs::open(&rt, "silk_cases.txt")?;
    let Filled { count, whole } = read_full(&mut file, &mut buffer);
    whole?;
    let spare = buffer.len() - count;
    let mut out = rt.stdout();
    replay_all(&rt, &mut out, &buffer, spare)?;
    Ok(())
}

// What is printed of cases that were replayed.
ghost use Rattle.std.specs.Prelude.{◌≡◌, ◌+◌, ◌^◌, ◌<◌, ◌↔◌, IsTrue, if◌then◌else◌, Some, OnOk};
ghost use Rattle.std.specs.Io.KnownBytes.{Appends};
ghost use Rattle.replay.specs.Reports.{case_text, count_text, total_text};

use std::io::Write;
use std::{fmt, io};

// How many cases were replayed, and how many of them differ.
#[derive(Clone, Copy, Debug, Default, PartialEq, Eq)]
pub struct Total {
    pub cases: u64,
    pub differing: u64,
}

impl Total {
    // Counts one case more.
    pub fn add(&mut self, differs: bool)
        requires cases { self.old.cases + 1 < 2 ^ 64 }
        requires differing { self.old.differing + 1 < 2 ^ 64 }
        ensures cases { self.new.cases ≡ self.old.cases + 1 }
        ensures differing { self.new.differing ≡ self.old.differing + (if differs then 1 else 0) }
    {
        self.cases += 1;
        self.differing += u64::from(differs);
    }

    // Whether no case differs.
    pub fn none_differs(self) -> bool
        ensures { IsTrue result ↔ (self.differing ≡ 0) }
    {
        self.differing == 0
    }
}

impl fmt::Display for Total {
    ghost output = { λ t. Some (count_text t) };

    fn fmt<W: fmt::Write>(&self, f: &mut fmt::Formatter<W>) -> fmt::Result {
        let Total { cases, differing } = *self;
        write!(f, "{cases} cases, {differing} differ")
    }
}

// Prints that a case differs. A writer that tells what it holds gains the line.
pub fn report_case<W: Write>(out: &mut W, name: &[u8], case: u64) -> io::Result<()>
    ensures { OnOk result (Appends (W.contents out.old) (W.contents out.new) (case_text name.now case)) }
{
    out.write_all(name)?;
    writeln!(out, ": case {case} differs")
}

// Prints how many cases a file has, and how many of them differ. A writer that tells what it holds gains the line.
pub fn report_total<W: Write>(out: &mut W, name: &[u8], total: Total) -> io::Result<()>
    ensures { OnOk result (Appends (W.contents out.old) (W.contents out.new) (total_text name.now total)) }
{
    out.write_all(name)?;
    writeln!(out, ": {total}")
}

// Replays the stored answers of all entries by the functions for C. Prints each case that differs, and how many cases each file has.
#![tactic(auto)]

mod colours;
mod lent;
mod regions;
mod sheets;

use replay::{CasesAt, Numbers, Total, report_case, report_total};
use std::alloc::{AllocError, Global};
use std::io::Write;
use std::rt::Files;
use std::{fs, io};

// How many numbers of a file are read at most.
const NUMBERS: usize = 32768;

// Replays the cases of a file's numbers, each by `holds`, which says whether the call gave what is stored. The answer is whether none differs.
fn replay_cases<W: Write, F: Fn(Global, Numbers<'_>) -> Result<bool, AllocError>>(
    alloc: Global,
    out: &mut W,
    name: &str,
    numbers: &[u64],
    holds: F,
) -> io::Result<bool>
    requires { F.IsAlwaysCallable holds }
{
    let mut total = Total::default();
    for case in CasesAt(Numbers::new(numbers)) {
        let same = holds(alloc, case)?;
        if !same {
            report_case(out, name.as_bytes(), total.cases)?;
        }
        total.add(!same);
    }
    report_total(out, name.as_bytes(), total)?;
    Ok(total.none_differs())
}

// Replays all cases of a file. The answer is whether none differs.
fn replayed<R: Files, W: Write, F: Fn(Global, Numbers<'_>) -> Result<bool, AllocError>>(
    files: &R,
    alloc: Global,
    out: &mut W,
    name: &str,
    holds: F,
) -> io::Result<bool>
    requires { F.IsAlwaysCallable holds }
{
    let mut file = fs::open(files, name)?;
    let mut numbers = replay::read_to_vec(alloc, &mut file)?;
    numbers.truncate(NUMBERS);
    replay_cases(alloc, out, name, &numbers, holds)
}

fn main(rt: HostRuntime) -> io::Result<()> {
    let alloc = rt.alloc();
    let mut out = rt.stdout();
    colours::replay_files(&rt, alloc, &mut out)?;
    regions::replay_files(&rt, alloc, &mut out)?;
    sheets::replay_files(&rt, alloc, &mut out)
}

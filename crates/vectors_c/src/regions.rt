// Cases of the entries that label regions, and of dilation.
use crate::lent::Lent;
use crate::replayed;
use replay::{Comparison, Kind, Numbers};
use silk_c::{silk_binary_dilation8, silk_label_regions, silk_label4};
use std::alloc::{AllocError, Global};
use std::io;
use std::io::Write;
use std::rt::Files;

// A case of an entry that labels the regions of a list's places.
fn labelled<A: Kind, F: Fn(&[A], usize, usize, &mut [u32], &mut [u32], &mut [u32]) -> u32>(
    alloc: Global,
    mut case: Numbers<'_>,
    entry: F,
) -> Result<bool, AllocError>
    requires { F.IsAlwaysCallable entry }
{
    let places = Lent::<A>::list(alloc, &mut case)?;
    let h = case.size();
    let w = case.size();
    let mut labels = Lent::<u32>::list(alloc, &mut case)?;
    let mut work = Lent::<u32>::work(alloc, &mut case)?;
    let mut facts = Lent::<u32>::list(alloc, &mut case)?;
    let answer = entry(
        &places.elements,
        h,
        w,
        &mut labels.elements,
        &mut work.elements,
        &mut facts.elements,
    );
    let found = places.compared(Comparison::answered(case, answer));
    let found = labels.compared(found);
    Ok(facts.compared(found).holds())
}

fn binary_dilation8(alloc: Global, mut case: Numbers<'_>) -> Result<bool, AllocError> {
    let mask = Lent::<u8>::list(alloc, &mut case)?;
    let h = case.size();
    let w = case.size();
    let iterations = case.element::<u32>();
    let mut out = Lent::<u8>::list(alloc, &mut case)?;
    let mut work = Lent::<u32>::work(alloc, &mut case)?;
    let answer = silk_binary_dilation8(
        &mask.elements,
        h,
        w,
        iterations,
        &mut out.elements,
        &mut work.elements,
    );
    let found = mask.compared(Comparison::answered(case, answer));
    Ok(out.compared(found).holds())
}

// Replays the files of the entries that label regions, and of dilation.
pub fn replay_files<R: Files, W: Write>(files: &R, alloc: Global, out: &mut W) -> io::Result<()> {
    replayed(
        files,
        alloc,
        out,
        "label_regions.txt",
        |alloc, case| labelled(alloc, case, silk_label_regions),
    )?;
    replayed(
        files,
        alloc,
        out,
        "label4.txt",
        |alloc, case| labelled(alloc, case, silk_label4),
    )?;
    replayed(files, alloc, out, "binary_dilation8.txt", binary_dilation8)?;
    Ok(())
}

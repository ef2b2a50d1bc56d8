// Cases of the entries over lists of colours, and of the one that reads hex.
use crate::lent::{LIST, Lent, MATRIX};
use crate::replayed;
use replay::{Comparison, Kind, Numbers};
use silk_c::{
    silk_delta_e, silk_hex_to_rgb8, silk_lab_to_rgb8, silk_nearest_index,
    silk_palette_distance_matrix, silk_rgb8_to_lab,
};
use std::alloc::{AllocError, Global};
use std::io;
use std::io::Write;
use std::rt::Files;

// A case of an entry that makes one list of another, for which there is so much room.
fn converted<A: Kind, B: Kind, F: Fn(&[A], &mut [B]) -> u32>(
    alloc: Global,
    mut case: Numbers<'_>,
    room: usize,
    entry: F,
) -> Result<bool, AllocError>
    requires { F.IsAlwaysCallable entry }
{
    let given = Lent::<A>::list(alloc, &mut case)?;
    let mut out = Lent::<B>::list_within(alloc, &mut case, room)?;
    let answer = entry(&given.elements, &mut out.elements);
    let found = given.compared(Comparison::answered(case, answer));
    Ok(out.compared(found).holds())
}

// A case of an entry that makes a list of two lists of colours.
fn paired<B: Kind, F: Fn(&[f64], &[f64], &mut [B]) -> u32>(
    alloc: Global,
    mut case: Numbers<'_>,
    entry: F,
) -> Result<bool, AllocError>
    requires { F.IsAlwaysCallable entry }
{
    let a = Lent::<f64>::list(alloc, &mut case)?;
    let b = Lent::<f64>::list(alloc, &mut case)?;
    let mut out = Lent::<B>::list(alloc, &mut case)?;
    let answer = entry(&a.elements, &b.elements, &mut out.elements);
    let found = a.compared(Comparison::answered(case, answer));
    let found = b.compared(found);
    Ok(out.compared(found).holds())
}

// Replays the files of the two conversions.
fn replay_conversions<R: Files, W: Write>(files: &R, alloc: Global, out: &mut W) -> io::Result<()> {
    replayed(
        files,
        alloc,
        out,
        "rgb8_to_lab.txt",
        |alloc, case| converted(alloc, case, LIST, silk_rgb8_to_lab),
    )?;
    replayed(
        files,
        alloc,
        out,
        "lab_to_rgb8.txt",
        |alloc, case| converted(alloc, case, LIST, silk_lab_to_rgb8),
    )?;
    Ok(())
}

// Replays the files of the entries over lists of colours, and of the one that reads hex.
pub fn replay_files<R: Files, W: Write>(files: &R, alloc: Global, out: &mut W) -> io::Result<()> {
    replay_conversions(files, alloc, out)?;
    replayed(
        files,
        alloc,
        out,
        "delta_e.txt",
        |alloc, case| paired(alloc, case, silk_delta_e),
    )?;
    replayed(
        files,
        alloc,
        out,
        "nearest_index.txt",
        |alloc, case| paired(alloc, case, silk_nearest_index),
    )?;
    replayed(
        files,
        alloc,
        out,
        "palette_distance_matrix.txt",
        |alloc, case| converted(alloc, case, MATRIX, silk_palette_distance_matrix),
    )?;
    replayed(
        files,
        alloc,
        out,
        "hex_to_rgb8.txt",
        |alloc, case| converted(alloc, case, LIST, silk_hex_to_rgb8),
    )?;
    Ok(())
}

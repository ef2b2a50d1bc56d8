// Cases of the entries on sheets and palettes.
use crate::lent::Lent;
use crate::replayed;
use replay::{Comparison, Numbers};
use silk_c::{
    silk_add_outline, silk_apply_saturation, silk_fix_jaggies, silk_remove_orphans, silk_run,
};
use std::alloc::{AllocError, Global};
use std::io;
use std::io::Write;
use std::rt::Files;

fn remove_orphans(alloc: Global, mut case: Numbers<'_>) -> Result<bool, AllocError> {
    let mut cells = Lent::<i32>::list(alloc, &mut case)?;
    let h = case.size();
    let w = case.size();
    let palette = Lent::<f64>::list(alloc, &mut case)?;
    let k = case.size();
    let region = case.element::<i32>();
    let passes = case.element::<u32>();
    let delta = case.element::<f64>();
    let mut work = Lent::<u32>::work(alloc, &mut case)?;
    let mut facts = Lent::<u32>::list(alloc, &mut case)?;
    let answer = silk_remove_orphans(
        &mut cells.elements,
        h,
        w,
        &palette.elements,
        k,
        region,
        passes,
        delta,
        &mut work.elements,
        &mut facts.elements,
    );
    let found = cells.compared(Comparison::answered(case, answer));
    let found = palette.compared(found);
    Ok(facts.compared(found).holds())
}

fn fix_jaggies(alloc: Global, mut case: Numbers<'_>) -> Result<bool, AllocError> {
    let mut cells = Lent::<i32>::list(alloc, &mut case)?;
    let h = case.size();
    let w = case.size();
    let mut work = Lent::<u32>::work(alloc, &mut case)?;
    let answer = silk_fix_jaggies(&mut cells.elements, h, w, &mut work.elements);
    let found = Comparison::answered(case, answer);
    Ok(cells.compared(found).holds())
}

// What an outline's numbers say: its kind, the darkening, and the triple.
#[derive(Clone, Copy)]
struct Line {
    kind: u32,
    darken: f64,
    r: u8,
    g: u8,
    b: u8,
}

impl Line {
    // Reads the five numbers of an outline.
    fn read(case: &mut Numbers<'_>) -> Self {
        let kind = case.element::<u32>();
        let darken = case.element::<f64>();
        let r = case.element::<u8>();
        let g = case.element::<u8>();
        let b = case.element::<u8>();
        Self {
            kind,
            darken,
            r,
            g,
            b,
        }
    }
}

fn add_outline(alloc: Global, mut case: Numbers<'_>) -> Result<bool, AllocError> {
    let mut cells = Lent::<i32>::list(alloc, &mut case)?;
    let h = case.size();
    let w = case.size();
    let mut palette = Lent::<f64>::list(alloc, &mut case)?;
    let k = case.size();
    let line = Line::read(&mut case);
    let pad = case.element::<u8>();
    let fixed = case.element::<u8>();
    let mut work = Lent::<u32>::work(alloc, &mut case)?;
    let mut facts = Lent::<u32>::list(alloc, &mut case)?;
    let answer = silk_add_outline(
        &mut cells.elements,
        h,
        w,
        &mut palette.elements,
        k,
        line.kind,
        line.darken,
        line.r,
        line.g,
        line.b,
        pad,
        fixed,
        &mut work.elements,
        &mut facts.elements,
    );
    let found = cells.compared(Comparison::answered(case, answer));
    let found = palette.compared(found);
    Ok(facts.compared(found).holds())
}

fn apply_saturation(alloc: Global, mut case: Numbers<'_>) -> Result<bool, AllocError> {
    let mut palette = Lent::<f64>::list(alloc, &mut case)?;
    let k = case.size();
    let beta = case.element::<f64>();
    let answer = silk_apply_saturation(&mut palette.elements, k, beta);
    let found = Comparison::answered(case, answer);
    Ok(palette.compared(found).holds())
}

// The settings of `run`, in the order of its numbers: the outline's stand among them.
#[derive(Clone, Copy)]
struct Settings {
    beta: f64,
    orphans: u8,
    region: i32,
    delta: f64,
    jaggies: u8,
    line: Line,
    tileset: u8,
    saturated: u8,
    fixed: u8,
    margin: i32,
}

impl Settings {
    // Reads the settings of `run`.
    fn read(case: &mut Numbers<'_>) -> Self {
        let beta = case.element::<f64>();
        let orphans = case.element::<u8>();
        let region = case.element::<i32>();
        let delta = case.element::<f64>();
        let jaggies = case.element::<u8>();
        let line = Line::read(case);
        let tileset = case.element::<u8>();
        let saturated = case.element::<u8>();
        let fixed = case.element::<u8>();
        let margin = case.element::<i32>();
        Self {
            beta,
            orphans,
            region,
            delta,
            jaggies,
            line,
            tileset,
            saturated,
            fixed,
            margin,
        }
    }
}

fn run(alloc: Global, mut case: Numbers<'_>) -> Result<bool, AllocError> {
    let mut cells = Lent::<i32>::list(alloc, &mut case)?;
    let h = case.size();
    let w = case.size();
    let mut palette = Lent::<f64>::list(alloc, &mut case)?;
    let k = case.size();
    let s = Settings::read(&mut case);
    let mut work = Lent::<u32>::work(alloc, &mut case)?;
    let mut facts = Lent::<u32>::list(alloc, &mut case)?;
    let answer = silk_run(
        &mut cells.elements,
        h,
        w,
        &mut palette.elements,
        k,
        s.beta,
        s.orphans,
        s.region,
        s.delta,
        s.jaggies,
        s.line.kind,
        s.line.darken,
        s.line.r,
        s.line.g,
        s.line.b,
        s.tileset,
        s.saturated,
        s.fixed,
        s.margin,
        &mut work.elements,
        &mut facts.elements,
    );
    let found = cells.compared(Comparison::answered(case, answer));
    let found = palette.compared(found);
    Ok(facts.compared(found).holds())
}

// Replays the files of the entries on sheets and palettes.
pub fn replay_files<R: Files, W: Write>(files: &R, alloc: Global, out: &mut W) -> io::Result<()> {
    replayed(files, alloc, out, "remove_orphans.txt", remove_orphans)?;
    replayed(files, alloc, out, "fix_jaggies.txt", fix_jaggies)?;
    replayed(files, alloc, out, "add_outline.txt", add_outline)?;
    replayed(files, alloc, out, "apply_saturation.txt", apply_saturation)?;
    replayed(files, alloc, out, "run.txt", run)?;
    Ok(())
}

// Labelling: the regions of the sheet in plane 0 of the work area, by flood fill. The order, plane 2, is its queue.
ghost use Rattle.std.specs.Prelude.{◌≡◌, true, false, ℕ, ◌+◌, ◌-◌, ◌*◌, ◌/◌, ◌%◌, ◌<◌, ◌≤◌, length};
ghost use Rattle.base.specs.Outputs.{filled};
ghost use Rattle.rules.specs.Grid.{step_to};
ghost use Rattle.rules.specs.Masks.{label_at, regions};
ghost use Rattle.grid.specs.Steps.{Single, Inner, neighbours};
ghost use Rattle.grid.specs.Planes.{plane, cells_of, Labelled};
ghost use Rattle.labels.specs.Filling.{Sized, seen, Coded, blanks, Filled, Shut, Flood, Begun, Alone, Tinted, LabelledTo, PlanesKept, Since, Visited, word_of, Cleared};

use crate::Tally;
use grid::{Grid, Move, Neighbourhood, OFFSETS8};

// No label is above it. A place without a label has in plane 1 its paint and this more.
const MOST: u32 = 264196;

// The paint of a transparent place, which is in no region.
const UNPAINTED: u32 = 0;

// The word in plane 1 of an opaque place without a label, which is beyond every label.
#[derive(Clone, Copy)]
struct Code {
    word: u32,
    ghost beyond: { 264196 < word },
}

// The cell that a step finds joins the region, if it has no label and the region's paint: the word of `code`.
fn visit(work: &mut [u32], g: Grid, m: Move, code: Code, t: Tally) -> Tally
    requires p_bound { (m.p < g.h * g.w) × (8 * (g.h * g.w) ≤ length work.old) }
    requires single { Single m.dy × Single m.dx × (m.border ≡ false → Inner g.h g.w m.p) }
    requires work_bound { (t.taken + blanks (g.h * g.w) (seen (g.h * g.w) work.old) ≤ g.h * g.w) × (0 < t.regions) × (t.regions ≤ 264196) }
    requires coded { Coded (g.h * g.w) work.old }
    ensures visited { Visited (g.h * g.w) (step_to g.h g.w (m.p / g.w) (m.p % g.w) m.dy m.dx) (code.word - 264196) (seen (g.h * g.w) work.old) t (seen (g.h * g.w) work.new) result }
    ensures coded_2 { Coded (g.h * g.w) work.new }
{
    let n = g.h * g.w;
    let Some(q) = g.reached(m) else {
        return t;
    };
    if work[n + q] != code.word {
        return t;
    }
    let mark = t.regions;
    let at = t.taken;
    work[n + q] = mark;
    work[2 * n + at] = q as u32;
    let next = at + 1;
    Tally {
        regions: mark,
        taken: next,
    }
}

// The cell that waits at head: its neighbours join its region.
fn visit_all(work: &mut [u32], g: Grid, head: usize, code: Code, from: Tally) -> Tally
    requires flood { Flood g.h g.w g.near (seen (g.h * g.w) work.old) head from × Coded (g.h * g.w) work.old × Tinted (g.h * g.w) (seen (g.h * g.w) work.old) head from.taken (code.word - 264196) }
    requires head_lt_taken { head < from.taken }
    ensures flood_2 { Flood g.h g.w g.near (seen (g.h * g.w) work.new) (head + 1) result × Coded (g.h * g.w) work.new × Tinted (g.h * g.w) (seen (g.h * g.w) work.new) (head + 1) result.taken (code.word - 264196) }
    ensures since { Since (g.h * g.w) (seen (g.h * g.w) work.old) (seen (g.h * g.w) work.new) }
    ensures regions_value { (result.regions ≡ from.regions) × (from.taken ≤ result.taken) }
{
    let n = g.h * g.w;
    let p = work[2 * n + head] as usize;
    let border = g.on_edge(p);
    let steps = g.near.steps();
    let mut t = from;
    for k in 0..8 {
        if k == steps {
            return t;
        }
        let [dy, dx] = OFFSETS8[k];
        t = visit(work, g, Move { p, dy, dx, border }, code, t);
    }
    t
}

// The whole region of the cells that wait from `first` on.
fn flood(work: &mut [u32], g: Grid, first: usize, code: Code, from: Tally) -> Tally
    requires { Flood g.h g.w g.near (seen (g.h * g.w) work.old) first from × Coded (g.h * g.w) work.old × Tinted (g.h * g.w) (seen (g.h * g.w) work.old) first from.taken (code.word - 264196) }
    ensures filled { Filled g.h g.w g.near (seen (g.h * g.w) work.new) (result.regions - 1) result Shut × Coded (g.h * g.w) work.new }
    ensures since { Since (g.h * g.w) (seen (g.h * g.w) work.old) (seen (g.h * g.w) work.new) }
    ensures regions_value { result.regions ≡ from.regions }
{
    let mut t = from;
    let mut head = first;
    while head < t.taken {
        t = visit_all(work, g, head, code, t);
        head += 1;
    }
    t
}

// Whether no neighbour after s has the word of `code`.
fn alone(work: &[u32], g: Grid, s: usize, code: Code) -> bool
    requires { Sized g.h g.w work.now × (s < g.h * g.w) }
    ensures { result ≡ true → Alone (g.h * g.w) g.w g.near work.now s code.word }
{
    let at = g.h * g.w + s;
    let below = at + g.w;
    if work[at + 1] == code.word || work[below] == code.word {
        return false;
    }
    match g.near {
        Neighbourhood::Four => true,
        Neighbourhood::Eight => work[below - 1] != code.word && work[below + 1] != code.word,
    }
}

// The whole region that begins at s, which alone waits: nothing joins it if no neighbour after s has its code.
fn fill(work: &mut [u32], g: Grid, s: usize, first: usize, code: Code, from: Tally) -> Tally
    requires { Begun g.h g.w g.near (seen (g.h * g.w) work.old) s first from × Coded (g.h * g.w) work.old × Tinted (g.h * g.w) (seen (g.h * g.w) work.old) first from.taken (code.word - 264196) }
    ensures filled { Filled g.h g.w g.near (seen (g.h * g.w) work.new) (result.regions - 1) result Shut × Coded (g.h * g.w) work.new }
    ensures since { Since (g.h * g.w) (seen (g.h * g.w) work.old) (seen (g.h * g.w) work.new) }
    ensures regions_value { result.regions ≡ from.regions }
{
    if alone(work, g, s, code) {
        return from;
    }
    flood(work, g, first, code, from)
}

// The place s: if it begins a region, that whole region is labelled and its end stored.
fn begin(work: &mut [u32], g: Grid, s: usize, t: Tally) -> Tally
    requires filled { Filled g.h g.w g.near (seen (g.h * g.w) work.old) t.regions t Shut × Coded (g.h * g.w) work.old }
    requires labelled_to { LabelledTo g.h g.w g.near (seen (g.h * g.w) work.old) t s }
    requires s_bound { s < g.h * g.w }
    ensures filled_2 { Filled g.h g.w g.near (seen (g.h * g.w) work.new) result.regions result Shut × Coded (g.h * g.w) work.new }
    ensures labelled_to_2 { LabelledTo g.h g.w g.near (seen (g.h * g.w) work.new) result (s + 1) }
    ensures since { Since (g.h * g.w) (seen (g.h * g.w) work.old) (seen (g.h * g.w) work.new) }
{
    let n = g.h * g.w;
    let word = work[n + s];
    if word <= MOST {
        return t;
    }
    let code = Code { word };
    let before = t.regions;
    let at = t.taken;
    let mark = before + 1;
    work[n + s] = mark;
    work[2 * n + at] = s as u32;
    let next = at + 1;
    let first = Tally {
        regions: mark,
        taken: next,
    };
    let full = fill(work, g, s, at, code, first);
    let end = full.taken;
    work[3 * n + before as usize] = end as u32;
    full
}

// The word of plane 1 of a place without a label, by its paint.
#[tactic(auto, unfolding(crate::specs::Filling::word_of))]
fn word(paint: u32) -> u32
    requires { paint ≤ 2147483648 }
    ensures { result ≡ word_of paint }
{
    if paint == UNPAINTED { 0 } else { paint + MOST }
}

// No place has a label.
fn clear(work: &mut [u32], n: usize)
    requires n_in_bounds { (8 * n ≤ length work.old) × (n ≤ 264196) }
    requires by_index { (p : ℕ) → p < n → plane n 0 work.old p ≤ 2147483648 }
    ensures { Cleared n n work.old work.new }
{
    let (paints, rest) = work.split_at_mut(n);
    for (p, code) in rest[..n].iter_mut().enumerate() {
        *code = word(paints[p]);
    }
}

// The regions of the sheet in plane 0: labels, order and ends in the planes 1 to 3.
pub fn label_planes(work: &mut [u32], g: Grid) -> Tally
    requires sized { Sized g.h g.w work.old }
    requires by_index { (p : ℕ) → p < g.h * g.w → plane (g.h * g.w) 0 work.old p ≤ 2147483648 }
    ensures labelled { Labelled (neighbours g.near g.w) (cells_of (g.h * g.w) work.old) (g.h * g.w) work.new result.regions result.taken }
    ensures planes_kept { PlanesKept (g.h * g.w) work.old work.new }
{
    let n = g.h * g.w;
    clear(work, n);
    let mut t = Tally {
        regions: 0,
        taken: 0,
    };
    for s in 0..n {
        t = begin(work, g, s, t);
    }
    t
}

// The marks go to a lent list one by one: by copy_from_slice the archive for C would ask for memmove from outside.
fn copy(marks: &[u32], labels: &mut [u32])
    requires { length marks.now ≡ length labels.old }
    ensures { labels.new ≡ marks.now }
{
    for (p, label) in labels.iter_mut().enumerate() {
        *label = marks[p];
    }
}

// The labels of the sheet in plane 0, handed out, and the number of its regions.
pub fn label_into(work: &mut [u32], g: Grid, labels: &mut [u32]) -> u32
    requires sized { Sized g.h g.w work.old × (g.h * g.w ≤ length labels.old) }
    requires by_index { (p : ℕ) → p < g.h * g.w → plane (g.h * g.w) 0 work.old p ≤ 2147483648 }
    ensures value { result ≡ regions (g.h * g.w) (neighbours g.near g.w) (cells_of (g.h * g.w) work.old) }
    ensures labels_after { labels.new ≡ filled (g.h * g.w) (label_at (g.h * g.w) (neighbours g.near g.w) (cells_of (g.h * g.w) work.old)) labels.old }
{
    let n = g.h * g.w;
    let t = label_planes(work, g);
    copy(&work[n..2 * n], &mut labels[..n]);
    t.regions
}

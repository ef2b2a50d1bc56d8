// Whether all large cells beside a region have one paint: that is its target then, and no votes need be counted.
ghost use Rattle.std.specs.Prelude.{◌≡◌, ◌-◌, ◌<◌};
ghost use Rattle.grid.specs.Steps.{steps_of};
ghost use Rattle.verdicts.specs.Steps.{area_of, landing, OneStep};
ghost use Rattle.verdicts.specs.Groups.{Stretch, GroupedSheet};
ghost use Rattle.verdicts.specs.Agreeing.{with_paint, asked_step, asked_beside, asked_around, one_paint};

use crate::large::Span;
use grid::{Grid, Move, OFFSETS8};

// What the cells asked so far have: none is large, all large ones have one paint, or they have several.
#[derive(Clone, Copy, Debug, PartialEq, Eq)]
enum Agreement {
    Silent,
    One(u32),
    Several,
}

// The same with one more large cell, of this paint.
#[tactic(auto, unfolding(crate::specs::Agreeing::with_paint))]
fn with_paint(so_far: Agreement, paint: u32) -> Agreement
    ensures { result ≡ with_paint so_far paint }
{
    match so_far {
        Agreement::Silent => Agreement::One(paint),
        Agreement::One(other) if other == paint => so_far,
        _ => Agreement::Several,
    }
}

// The cell that a step from p finds is asked.
fn ask_step(work: &[u32], grid: Grid, step: Move, so_far: Agreement) -> Agreement
    requires { GroupedSheet grid work.now × OneStep grid step }
    ensures { result ≡ asked_step (area_of grid) work.now (landing grid step) so_far }
{
    let n = grid.h * grid.w;
    match grid.reached(step) {
        Some(q) if work[5 * n + q] != 0 => with_paint(so_far, work[q]),
        _ => so_far,
    }
}

// The neighbours of the cell p are asked.
fn ask_beside(work: &[u32], grid: Grid, p: usize, so_far: Agreement) -> Agreement
    requires { GroupedSheet grid work.now × (p < area_of grid) }
    ensures { result ≡ asked_beside grid work.now p (steps_of grid.near) so_far }
{
    let border = grid.on_edge(p);
    let steps = grid.near.steps();
    let mut found = so_far;
    for (s, offset) in OFFSETS8.iter().enumerate() {
        if s == steps {
            return found;
        }
        let [dy, dx] = *offset;
        found = ask_step(work, grid, Move { p, dy, dx, border }, found);
        if let Agreement::Several = found {
            return found;
        }
    }
    found
}

// The paint of all large cells beside the places of a span, if they have one.
#[tactic(auto, unfolding(crate::specs::Agreeing::one_paint))]
pub fn agreed(work: &[u32], grid: Grid, span: Span) -> Option<u32>
    requires { GroupedSheet grid work.now × Stretch (area_of grid) work.now span }
    ensures { result ≡ one_paint (asked_around grid work.now span.from (span.to - span.from)) }
{
    let mut found = Agreement::Silent;
    for p in span.places(work, grid.h * grid.w) {
        found = ask_beside(work, grid, *p as usize, found);
        if let Agreement::Several = found {
            return None;
        }
    }
    match found {
        Agreement::One(paint) => Some(paint),
        _ => None,
    }
}

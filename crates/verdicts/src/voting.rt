// The votes on a region: each large cell beside it votes once, for its own index.
ghost use Rattle.std.specs.Prelude.{◌≡◌, true, ◌<◌, Some};
ghost use Rattle.verdicts.specs.Steps.{area_of, adjoins, landing, OneStep};
ghost use Rattle.verdicts.specs.Groups.{Stretch, GroupedSheet, CanVote};
ghost use Rattle.verdicts.specs.Polling.{Tallied, Polled, Beside};

use crate::large::Span;
use grid::{Grid, Move, OFFSETS8};

// What plane 5 holds for a cell that has voted; 0 is for a cell that is not large.
#[derive(Clone, Copy)]
pub struct Mark {
    pub word: u32,
    pub ghost set: { 0 < word },
}

// The cell q votes, if it is large and has not voted.
fn ask(work: &mut [u32], n: usize, q: usize, mark: Mark, counts: &mut [u32; 256])
    requires can_vote { CanVote n work.old }
    requires q_lt_n { q < n }
    requires tallied { Tallied n work.old mark.word counts.old }
    ensures { Polled n mark.word (λ x. x ≡ q) work.old work.new counts.new }
{
    let last = work[5 * n + q];
    let small = last == 0;
    if small || last == mark.word {
        return;
    }
    let c = work[q] as usize - 1;
    work[5 * n + q] = mark.word;
    counts[c] += 1;
}

// The cell that a step from p finds votes.
fn vote(work: &mut [u32], grid: Grid, step: Move, mark: Mark, counts: &mut [u32; 256])
    requires grouped_sheet { GroupedSheet grid work.old × OneStep grid step }
    requires tallied { Tallied (area_of grid) work.old mark.word counts.old }
    ensures { Polled (area_of grid) mark.word (λ q. landing grid step ≡ Some q) work.old work.new counts.new }
{
    if let Some(q) = grid.reached(step) {
        ask(work, grid.h * grid.w, q, mark, counts);
    }
}

// The neighbours of the cell p vote.
fn vote_all(work: &mut [u32], grid: Grid, p: usize, mark: Mark, counts: &mut [u32; 256])
    requires grouped_sheet { GroupedSheet grid work.old × (p < area_of grid) }
    requires tallied { Tallied (area_of grid) work.old mark.word counts.old }
    ensures { Polled (area_of grid) mark.word (λ q. adjoins grid p q ≡ true) work.old work.new counts.new }
{
    let border = grid.on_edge(p);
    let steps = grid.near.steps();
    for (s, offset) in OFFSETS8.iter().enumerate() {
        if s == steps {
            return;
        }
        let [dy, dx] = *offset;
        vote(work, grid, Move { p, dy, dx, border }, mark, counts);
    }
}

// The neighbours of the places of a span vote.
pub fn poll(work: &mut [u32], grid: Grid, span: Span, mark: Mark, counts: &mut [u32; 256])
    requires grouped_sheet { GroupedSheet grid work.old × Stretch (area_of grid) work.old span }
    requires tallied { Tallied (area_of grid) work.old mark.word counts.old }
    ensures { Polled (area_of grid) mark.word (Beside grid work.old span.from span.to) work.old work.new counts.new }
{
    let n = grid.h * grid.w;
    for i in span.from..span.to {
        let p = work[2 * n + i] as usize;
        vote_all(work, grid, p, mark, counts);
    }
}

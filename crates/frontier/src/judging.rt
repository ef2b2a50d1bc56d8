// Which regions are judged in a pass, and what follows for them.
ghost use Rattle.std.specs.Prelude.{◌≡◌, true, ℕ, ◌≤◌, ◌<◌, MatchOption, Some};
ghost use Rattle.grid.specs.Planes.{plane};
ghost use Rattle.verdicts.specs.Steps.{area_of, adjoins, landing, OneStep};
ghost use Rattle.verdicts.specs.Groups.{Group, GroupedSheet};
ghost use Rattle.verdicts.specs.Judges.{rule_by};
ghost use Rattle.frontier.specs.Judging.{Noted, Stage, Met, Small, Around, AroundLogged};

use crate::regions::{set_region, small_region};
use grid::{Grid, Move, OFFSETS8};
use verdicts::target::Verdict;
use verdicts::{Judge, region_span};

// The region with the label at + 1 is decided, if it can be: frozen at once, or logged at `end` to be repainted. The log's end then.
pub fn judge_region(work: &mut [u32], judge: &Judge, at: usize, end: usize) -> usize
    requires stage { Stage (rule_by judge.now) judge.now.grid judge.now.by.k end work.old }
    requires group { Group (area_of judge.now.grid) work.old at }
    ensures { Noted (rule_by judge.now) (area_of judge.now.grid) at end work.old work.new result }
{
    let n = judge.grid.h * judge.grid.w;
    let verdict = judge.verdict(work, at);
    match verdict {
        Verdict::Stays => end,
        Verdict::Frozen => {
            work[6 * n + at] = Verdict::Frozen.as_number();
            set_region(work, n, at, 4, 1);
            end
        }
        Verdict::Takes(_) => {
            work[6 * n + at] = verdict.as_number();
            work[7 * n + end] = at as u32;
            end + 1
        }
    }
}

// The first `count` groups are judged. The log's end then.
pub fn judge_all(work: &mut [u32], judge: &Judge, count: usize) -> usize
    requires stage { Stage (rule_by judge.now) judge.now.grid judge.now.by.k 0 work.old }
    requires by_index { (at : ℕ) → at < count → Group (area_of judge.now.grid) work.old at }
    ensures { Met (rule_by judge.now) judge.now.grid judge.now.by.k (λ l. l < count) work.old work.new 0 result }
{
    let mut end = 0;
    for at in 0..count {
        end = judge_region(work, judge, at, end);
    }
    end
}

// The region of the cell that a step finds, as its label less one, if it is small.
fn small_found(work: &[u32], grid: Grid, step: Move) -> Option<usize>
    requires { GroupedSheet grid work.now × OneStep grid step }
    ensures { MatchOption result ((at : ℕ) → Small (area_of grid) work.now (λ q. landing grid step ≡ Some q) at → ⊥) (Small (area_of grid) work.now (λ q. landing grid step ≡ Some q)) }
{
    let q = grid.reached(step)?;
    small_region(work, grid.h * grid.w, q)
}

// The groups beside the place p are judged, if they are small.
fn judge_beside(work: &mut [u32], judge: &Judge, p: usize, from: usize) -> usize
    requires stage { Stage (rule_by judge.now) judge.now.grid judge.now.by.k from work.old }
    requires p_bound { p < area_of judge.now.grid }
    ensures { Met (rule_by judge.now) judge.now.grid judge.now.by.k (Small (area_of judge.now.grid) work.old (λ q. adjoins judge.now.grid p q ≡ true)) work.old work.new from result }
{
    let border = judge.grid.on_edge(p);
    let steps = judge.grid.near.steps();
    let mut end = from;
    for (s, offset) in OFFSETS8.iter().enumerate() {
        if s == steps {
            return end;
        }
        let [dy, dx] = *offset;
        if let Some(at) = small_found(work, judge.grid, Move { p, dy, dx, border }) {
            end = judge_region(work, judge, at, end);
        }
    }
    end
}

// The groups beside the group with the label at + 1 are judged, if they are small.
fn judge_around(work: &mut [u32], judge: &Judge, at: usize, from: usize) -> usize
    requires stage { Stage (rule_by judge.now) judge.now.grid judge.now.by.k from work.old }
    requires group { Group (area_of judge.now.grid) work.old at }
    ensures { Met (rule_by judge.now) judge.now.grid judge.now.by.k (Small (area_of judge.now.grid) work.old (Around judge.now.grid work.old at)) work.old work.new from result }
{
    let n = judge.grid.h * judge.grid.w;
    let span = region_span(work, n, at);
    let mut end = from;
    for i in span.from..span.to {
        let p = work[2 * n + i] as usize;
        end = judge_beside(work, judge, p, end);
    }
    end
}

// The groups beside those of the log from `begin` on and before `end` are judged, if they are small.
pub fn judge_frontier(work: &mut [u32], judge: &Judge, begin: usize, end: usize) -> usize
    requires stage { Stage (rule_by judge.now) judge.now.grid judge.now.by.k end work.old }
    requires by_index { (i : ℕ) → begin ≤ i → i < end → Group (area_of judge.now.grid) work.old (plane (area_of judge.now.grid) 7 work.old i) }
    ensures { Met (rule_by judge.now) judge.now.grid judge.now.by.k (Small (area_of judge.now.grid) work.old (AroundLogged judge.now.grid work.old begin end)) work.old work.new end result }
{
    let n = judge.grid.h * judge.grid.w;
    let mut mid = end;
    for i in begin..end {
        let at = work[7 * n + i] as usize;
        mid = judge_around(work, judge, at, mid);
    }
    mid
}

// What becomes large: groups of at least `limit` places at the start, then repainted ones, and those of the index beside them.
ghost use Rattle.std.specs.Prelude.{◌≡◌, true, false, ℕ, suc, ◌+◌, ◌-◌, ◌≤◌, ◌<◌, Some};
ghost use Rattle.rules.specs.Grid.{eight};
ghost use Rattle.grid.specs.Planes.{plane, end_of};
ghost use Rattle.verdicts.specs.Steps.{area_of, landing, OneStep};
ghost use Rattle.verdicts.specs.Groups.{Planes, Group};
ghost use Rattle.frontier.specs.Growing.{Listed, Matches, MatchesAround, MatchesLogged, Enlarged, Repainted, Growth, Gained, Decided, Grew};

use crate::regions::{set_region, small_region};
use grid::{Grid, Move, OFFSETS8};
use verdicts::near::any_near;
use verdicts::{region_size, region_span};

// Of the first `count` groups those of at least `limit` places are large.
pub fn mark_large(work: &mut [u32], n: usize, count: usize, limit: u32)
    requires planes { Planes n work.old }
    requires by_index { (at : ℕ) → at < count → Group n work.old at }
    ensures { Enlarged n (λ l. (l < count) × (limit ≤ end_of n work.old (suc l) - end_of n work.old l)) work.old work.new }
{
    for at in 0..count {
        let size = region_size(work, n, at);
        if limit <= size {
            set_region(work, n, at, 5, 1);
        }
    }
}

// The places with the label at + 1 take the paint that their number tells, and are large.
fn repaint(work: &mut [u32], n: usize, at: usize)
    requires planes { Planes n work.old }
    requires group { Group n work.old at × (1 ≤ plane n 6 work.old at) }
    ensures { Repainted n (λ l. l ≡ at) work.old work.new }
{
    let number = work[6 * n + at];
    let paint = number - 1;
    let span = region_span(work, n, at);
    for i in span.from..span.to {
        let p = work[2 * n + i] as usize;
        work[p] = paint;
        work[5 * n + p] = 1;
    }
}

// The groups of the log from `from` on and before `to` are repainted.
pub fn repaint_all(work: &mut [u32], n: usize, from: usize, to: usize)
    requires planes { Planes n work.old × (to ≤ n) }
    requires by_index { (i : ℕ) → from ≤ i → i < to → Group n work.old (plane n 7 work.old i) × (1 ≤ plane n 6 work.old (plane n 7 work.old i)) }
    ensures { Repainted n (Listed n work.old from to) work.old work.new }
{
    for i in from..to {
        let at = work[7 * n + i] as usize;
        repaint(work, n, at);
    }
}

// The group that a step finds becomes large, if it is small and of that paint; it is logged at `end`. The log's end then.
fn absorb(work: &mut [u32], grid: Grid, step: Move, paint: u32, end: usize) -> usize
    requires { Growth grid end work.old × OneStep grid step }
    ensures { Gained grid (λ q. (landing grid step ≡ Some q) × (plane (area_of grid) 0 work.old q ≡ paint)) work.old work.new end result }
{
    let n = grid.h * grid.w;
    let Some(q) = grid.reached(step) else {
        return end;
    };
    let other = work[q] != paint;
    if other {
        return end;
    }
    let Some(at) = small_region(work, n, q) else {
        return end;
    };
    set_region(work, n, at, 5, 1);
    work[7 * n + end] = at as u32;
    end + 1
}

// Whether the cell q is small and of the paint.
#[tactic(auto, unfolding(grid::specs::Planes::plane))]
fn small_at(work: &[u32], n: usize, q: usize, paint: u32) -> bool
    requires { Planes n work.now × (q < n) }
    ensures { result ≡ false → plane n 0 work.now q ≡ paint → plane n 5 work.now q ≡ 0 → ⊥ }
{
    work[q] == paint && work[5 * n + q] == 0
}

// Whether a small cell of the paint may be beside the place p.
fn small_near(work: &[u32], n: usize, w: usize, p: usize, paint: u32) -> bool
    requires { Planes n work.now × (w ≤ 514) × (p < n) }
    ensures { result ≡ false → (q : ℕ) → eight w p q ≡ true → plane n 0 work.now q ≡ paint → plane n 5 work.now q ≡ 0 → ⊥ }
{
    any_near(n, w, p, |q| small_at(work, n, q, paint))
}

// The groups of its paint beside the place p become large. Whether there may be one is asked first, since the steps cost more.
fn absorb_beside(work: &mut [u32], grid: Grid, p: usize, from: usize) -> usize
    requires { Growth grid from work.old × (p < area_of grid) }
    ensures { Gained grid (Matches grid work.old p) work.old work.new from result }
{
    let n = grid.h * grid.w;
    let paint = work[p];
    if !small_near(work, n, grid.w, p, paint) {
        return from;
    }
    let border = grid.on_edge(p);
    let steps = grid.near.steps();
    let mut end = from;
    for (s, offset) in OFFSETS8.iter().enumerate() {
        if s == steps {
            return end;
        }
        let [dy, dx] = *offset;
        end = absorb(work, grid, Move { p, dy, dx, border }, paint, end);
    }
    end
}

// The groups of its paint beside the group with the label at + 1 become large.
fn absorb_around(work: &mut [u32], grid: Grid, at: usize, from: usize) -> usize
    requires { Growth grid from work.old × Group (area_of grid) work.old at }
    ensures { Gained grid (MatchesAround grid work.old at) work.old work.new from result }
{
    let n = grid.h * grid.w;
    let span = region_span(work, n, at);
    let mut end = from;
    for i in span.from..span.to {
        let p = work[2 * n + i] as usize;
        end = absorb_beside(work, grid, p, end);
    }
    end
}

// The groups of its paint beside each of the groups of the log from `from` on and before `to` become large, and are logged from `to` on. The log's end then.
pub fn absorb_all(work: &mut [u32], grid: Grid, from: usize, to: usize) -> usize
    requires growth { Growth grid to work.old }
    requires by_index { (i : ℕ) → from ≤ i → i < to → Group (area_of grid) work.old (plane (area_of grid) 7 work.old i) }
    ensures { Gained grid (MatchesLogged grid work.old from to) work.old work.new to result }
{
    let n = grid.h * grid.w;
    let mut last = to;
    for i in from..to {
        let at = work[7 * n + i] as usize;
        last = absorb_around(work, grid, at, last);
    }
    last
}

// What is decided is done: the groups of the log from `from` on and before `mid` are repainted, and those of their paint beside them become large. The log's end then.
pub fn grow(work: &mut [u32], grid: Grid, from: usize, mid: usize) -> usize
    requires { Decided grid from mid work.old }
    ensures { Grew grid from mid work.old work.new result }
{
    let n = grid.h * grid.w;
    repaint_all(work, n, from, mid);
    absorb_all(work, grid, from, mid)
}

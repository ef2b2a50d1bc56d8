// A region's places are written to, and a place's small region is looked up.
ghost use Rattle.std.specs.Prelude.{◌≡◌, ◌⊎◌, ℕ, ◌≤◌, ◌<◌, MatchOption};
ghost use Rattle.verdicts.specs.Groups.{Planes, Group};
ghost use Rattle.frontier.specs.Judging.{RegionSet, Small};

use verdicts::region_span;

// The places with the label at + 1 get v in plane j.
pub fn set_region(work: &mut [u32], n: usize, at: usize, j: usize, v: u32)
    requires group { Group n work.old at }
    requires planes { Planes n work.old }
    requires plane { (j < 8) × ((j ≡ 0) ⊎ (4 ≤ j)) }
    ensures { RegionSet n at j v work.old work.new }
{
    let span = region_span(work, n, at);
    let base = j * n;
    for i in span.from..span.to {
        let p = work[2 * n + i] as usize;
        work[base + p] = v;
    }
}

// The region of the place q, as its label less one, if it is small.
pub fn small_region(work: &[u32], n: usize, q: usize) -> Option<usize>
    requires { Planes n work.now × (q < n) }
    ensures { MatchOption result ((at : ℕ) → Small n work.now (λ x. x ≡ q) at → ⊥) (Small n work.now (λ x. x ≡ q)) }
{
    let large = work[5 * n + q] != 0;
    if large {
        return None;
    }
    (work[n + q] as usize).checked_sub(1)
}

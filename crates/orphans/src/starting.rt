// Before the first pass: numbers of the work area wiped, and whether any region is small.
ghost use Rattle.std.specs.Prelude.{◌≡◌, ℕ, suc, ◌+◌, ◌≤◌, ◌<◌, ltb, length};
ghost use Rattle.base.specs.Places.{any};
ghost use Rattle.verdicts.specs.Groups.{Planes, Group};
ghost use Rattle.orphans.specs.Passing.{Wiped};
ghost use Rattle.orphans.specs.Starting.{size_of};

use verdicts::region_size;

// The numbers from `start` on, `many` of them, become 0.
pub fn wipe(work: &mut [u32], start: usize, many: usize)
    requires { start + many ≤ length work.old }
    ensures { Wiped start many work.old work.new }
{
    work[start..start + many].fill(0);
}

// Whether one of the first `count` regions has fewer than `limit` places.
pub fn any_small(work: &[u32], n: usize, count: usize, limit: u32) -> bool
    requires planes { Planes n work.now }
    requires by_index { (at : ℕ) → at < count → Group n work.now at }
    ensures { result ≡ any count (λ at. ltb (size_of n work.now (suc at)) limit) }
{
    (0..count).any(|at| region_size(work, n, at) < limit)
}

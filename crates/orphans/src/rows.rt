// The conditions of the refusals of `remove_orphans` that are its own.
ghost use Rattle.std.specs.Prelude.{◌≡◌, not, ◌&&◌, ◌||◌, ◌≤◌, pos, ltb, length, take};
ghost use Rattle.std.specs.Int.Signed.{le_z};
ghost use Rattle.base.specs.Places.{any};
ghost use Rattle.rules.specs.Regions.{at};
ghost use Rattle.rules.specs.Palette.{between};

use refusals::{limit_in_range, some_small};

// Row 6: the colour limit is NaN or out of range, or there are too many passes.
pub fn bad_limits(max_delta: f64, max_passes: u32) -> bool
    ensures { result ≡ (not (between 0 1024 max_delta) || ltb 65535 max_passes) }
{
    !limit_in_range(max_delta) || 65535 < max_passes
}

// Row 7: regions can be small, and one of the first n cells names no entry.
pub fn bad_index(cells: &[i32], n: usize, k: usize, region: i32) -> bool
    requires { (k ≤ 256) × (n ≤ length cells.now) }
    ensures { result ≡ (le_z (pos 2) region && any n (λ p. le_z (pos k) (at (take n cells.now) p))) }
{
    let front = &cells[..n];
    some_small(region) && refusals::bad_index(front, k)
}

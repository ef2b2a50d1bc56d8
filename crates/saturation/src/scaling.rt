// Saturation: a and b of every entry of a palette, multiplied by beta.
ghost use Rattle.std.specs.Prelude.{◌≡◌, false, ◌*◌, ◌<◌, ◌≤◌, length, get_or, set};
ghost use Rattle.std.specs.Float.{nan};
ghost use Rattle.base.specs.Doubles.{◌⊗◌};
ghost use Rattle.rules.specs.Palette.{palette_of, saturate, out_of_range};
ghost use Rattle.rules.specs.InUse.{in_use};
ghost use Rattle.saturation.specs.Near.{surely_in_range};

use color::cielab::within;
use refusals::{all_near, between};
use rules::Entries;

// Whether beta and every double in use are so near 0 that no product of a palette in range can be out of range.
fn surely_in_range(entries: Entries, beta: f64) -> bool
    ensures { result ≡ surely_in_range beta (in_use entries.entry) }
{
    if between(-1.0, 1.0, beta) {
        return true;
    }
    between(-4.0, 4.0, beta) && all_near(entries, 256.0)
}

// Whether a multiplied a or b is NaN or beyond 1024 either way, by the products. The three parts of a colour are looked at with no branch between them.
fn any_scaled_too_far(entries: Entries, beta: f64) -> bool
    ensures { result ≡ out_of_range (saturate beta (in_use entries.entry)) }
{
    (0..entries.k).any(|i| {
        let c = entries.colour(i);
        !within(c.l) | !within(c.a * beta) | !within(c.b * beta)
    })
}

// Whether a multiplied a or b of a palette in range is NaN or beyond 1024 either way.
pub fn scaled_too_far(entries: Entries, beta: f64) -> bool
    requires { out_of_range (in_use entries) ≡ false }
    ensures { result ≡ out_of_range (saturate beta (in_use entries.entry)) }
{
    if surely_in_range(entries, beta) {
        return false;
    }
    any_scaled_too_far(entries, beta)
}

// Multiplies the double at a place by beta.
fn scale(palette: &mut [f64], at: usize, beta: f64)
    requires { at < length palette.old }
    ensures { palette.new ≡ set palette.old at (get_or palette.old at nan ⊗ beta) }
{
    palette[at] = palette[at] * beta;
}

// Multiplies a and b of every entry by beta.
pub fn saturate(palette: &mut [f64], k: usize, beta: f64)
    requires { (3 * k ≤ length palette.old) × (k ≤ 256) }
    ensures { palette.new ≡ (saturate beta (palette_of palette.old k)).lab }
{
    for i in 0..k {
        scale(palette, 3 * i + 1, beta);
        scale(palette, 3 * i + 2, beta);
    }
}

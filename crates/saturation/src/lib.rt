// Saturation: a and b of every entry of a palette are multiplied by beta.
#![tactic(auto)]

pub mod scaling;

ghost use Rattle.std.specs.Prelude.{◌≡◌};
ghost use Rattle.rules.specs.Palette.{palette_of};
ghost use Rattle.rules.specs.Entries.{saturation_answer, saturation_palette};

use crate::scaling::{saturate, scaled_too_far};
use base::Refusal;
use refusals::{between, palette_refusal};
use rules::Entries;

// Multiplies a and b of every entry by beta, in place.
pub fn apply_saturation(palette: &mut [f64], k: usize, beta: f64) -> Result<(), Refusal>
    ensures value { result ≡ saturation_answer (palette_of palette.old k) beta }
    ensures palette_after { palette.new ≡ saturation_palette (palette_of palette.old k) beta }
{
    let bad = !between(0.0, 16.0, beta);
    palette_refusal(palette, k, bad)?;
    if scaled_too_far(Entries { lab: palette, k }, beta) {
        return Err(Refusal::SettingOutOfRange);
    }
    saturate(palette, k, beta);
    Ok(())
}

// What is done to a sheet once its colours are chosen: saturation, cleaning, corners and outline.
#![tactic(auto)]

pub mod steps;

ghost use Rattle.std.specs.Prelude.{◌≡◌, length};
ghost use Rattle.rules.specs.Sheet.{lent_sheet};
ghost use Rattle.rules.specs.Palette.{palette_of};
ghost use Rattle.rules.specs.Calls.{RunCall};
ghost use Rattle.rules.specs.Entries.{run_answer, run_cells, run_palette};

use crate::steps::{clean_again, clean_if, outline_if, tone_unless, trim_if};
use base::Refusal;
use rules::{PostConfig, Processed, Size};
use run_refusals::{Options, run_refusal};

// The passes of the first cleaning.
pub const ORPHAN_MAX_PASSES: u32 = 5;

// Saturation, cleaning, corners and outline, each as switched on, and cleaning once more after an outline.
pub fn run(
    cells: &mut [i32],
    h: usize,
    w: usize,
    palette: &mut [f64],
    k: usize,
    config: PostConfig,
    saturated: bool,
    fixed_palette: bool,
    outline_margin: i32,
    work: &mut [u32],
) -> Result<Processed, Refusal>
    ensures { (let call : RunCall = record {
      lent = lent_sheet cells.old h w (length work.old);
      palette = palette_of palette.old k;
      config = config;
      saturated = saturated;
      fixed = fixed_palette;
      margin = outline_margin;
    } in (result ≡ run_answer call) × (cells.new ≡ run_cells call) × (palette.new ≡ run_palette call)) }
{
    let o = Options {
        config,
        saturated,
        fixed_palette,
        outline_margin,
    };
    run_refusal(cells, h, w, palette, k, o, work.len())?;
    let size = Size { h, w };
    tone_unless(o.kept(), palette, k, config);
    let passes = clean_if(cells, size, palette, k, config, ORPHAN_MAX_PASSES, work);
    trim_if(cells, h, w, config, work);
    let how = o.drawing();
    let facts = outline_if(cells, size, palette, k, how, work);
    let again = clean_again(cells, facts, palette, config, work);
    Ok(Processed {
        facts,
        passes,
        again,
    })
}

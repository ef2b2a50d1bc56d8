// The refusals of `run`: every row is judged before the first write.
#![tactic(auto)]

ghost use Rattle.std.specs.Prelude.{◌≡◌, ◌||◌, [], ◌≤◌};
ghost use Rattle.base.specs.Refusals.{refusal, answered};
ghost use Rattle.rules.specs.Sheet.{lent_sheet};
ghost use Rattle.rules.specs.Palette.{palette_of};
ghost use Rattle.rules.specs.Run.{pad_allowed};
ghost use Rattle.rules.specs.Rows.{palette_rows, bad_index};
ghost use Rattle.rules.specs.Entries.{bad_ranges, bad_config, run_refusal};
ghost use Rattle.outline.specs.Standing.{sheet_on};

use base::Refusal;
use outline::canvas::Lent;
use outline::rows::padding;
use refusals::{
    bad_darkening, bad_index, between, limit_in_range, palette_refusal, sheet_refusal, some_small,
};
use rules::{Drawing, Entries, PostConfig};
use saturation::scaling::scaled_too_far;

// What `run` is told besides the sheet and the palette.
#[derive(Clone, Copy, Debug, PartialEq)]
pub struct Options {
    pub config: PostConfig,
    pub saturated: bool,
    pub fixed_palette: bool,
    pub outline_margin: i32,
}

impl Options {
    // Whether the palette's colours are kept as they are.
    pub fn kept(self) -> bool
        ensures { result ≡ (self.saturated || self.fixed_palette) }
    {
        self.saturated || self.fixed_palette
    }

    // Padding is allowed when tileset is off and the margin is 0.
    #[tactic(auto, using(crate::proofs::Margins::zero_bits), unfolding(rules::specs::Run::pad_allowed))]
    fn pad_allowed(self) -> bool
        ensures { result ≡ pad_allowed self.config self.outline_margin }
    {
        if self.config.tileset {
            return false;
        }
        self.outline_margin == 0
    }

    // How `run` draws its outline.
    pub fn drawing(self) -> Drawing
        ensures { result ≡ record { outline = self.config.outline; allow_pad = pad_allowed self.config self.outline_margin; fixed_palette = self.fixed_palette } }
    {
        Drawing {
            outline: self.config.outline,
            allow_pad: self.pad_allowed(),
            fixed_palette: self.fixed_palette,
        }
    }
}

// Row 6: a setting is out of range, whether or not its pass is on.
fn bad_ranges(config: PostConfig) -> bool
    ensures { result ≡ bad_ranges config }
{
    if !between(0.0, 16.0, config.saturation_beta) {
        return true;
    }
    if !limit_in_range(config.orphan_max_delta) {
        return true;
    }
    let outline = config.outline;
    bad_darkening(outline)
}

// Rows 4 to 6: the palette and the settings; and saturation, where it applies, carries no double out of range.
fn settings_refusal(palette: &[f64], k: usize, o: Options) -> Result<(), Refusal>
    ensures { result ≡ answered (refusal (palette_rows (palette_of palette.now k) (bad_config o.config (o.saturated || o.fixed_palette) (palette_of palette.now k)))) tt }
{
    palette_refusal(palette, k, bad_ranges(o.config))?;
    // Saturation scales a palette unless it is kept.
    let scaled = !o.kept();
    if !scaled {
        return Ok(());
    }
    if scaled_too_far(Entries { lab: palette, k }, o.config.saturation_beta) {
        return Err(Refusal::SettingOutOfRange);
    }
    Ok(())
}

// Row 7: cleaning meets a cell that names no entry.
fn bad_index_met(on: Lent, k: usize, config: PostConfig) -> bool
    requires { k ≤ 256 }
    ensures { result ≡ (bad_index config.remove_orphans config.orphan_min_region (palette_of [] k) (sheet_on on.entry)).applies }
{
    if !config.remove_orphans {
        return false;
    }
    some_small(config.orphan_min_region) && bad_index(&on.cells[..on.h * on.w], k)
}

// All rows of `run`: what it refuses, if anything.
pub fn run_refusal(
    cells: &[i32],
    h: usize,
    w: usize,
    palette: &[f64],
    k: usize,
    o: Options,
    work: usize,
) -> Result<(), Refusal>
    ensures { result ≡ answered (run_refusal (record {
      lent = lent_sheet cells.now h w work;
      palette = palette_of palette.now k;
      config = o.config;
      saturated = o.saturated;
      fixed = o.fixed_palette;
      margin = o.outline_margin;
    })) tt }
{
    let how = o.drawing();
    let padded = padding(cells, h, w, how);
    sheet_refusal(h, w, padded, cells.len(), work)?;
    settings_refusal(palette, k, o)?;
    let on = Lent { cells, h, w };
    if bad_index_met(on, k, o.config) {
        return Err(Refusal::NoSuchEntry);
    }
    if on.no_entry(k, how, padded) {
        return Err(Refusal::NoEntries);
    }
    Ok(())
}

// The steps of `run`, each made as it is switched on.
ghost use Rattle.std.specs.Prelude.{◌≡◌, true, false, cond, ◌*◌, ◌≤◌, length};
ghost use Rattle.rules.specs.Sheet.{sheet_of, over, needed};
ghost use Rattle.rules.specs.Palette.{palette_of};
ghost use Rattle.rules.specs.Corners.{trim};
ghost use Rattle.rules.specs.Outline.{pads};
ghost use Rattle.rules.specs.Run.{clean_sheet_if, limits_of, toned, outline_if, cleans_again};
ghost use Rattle.refusals.specs.Room.{SheetFits};
ghost use Rattle.orphans.specs.Entry.{Fit};
ghost use Rattle.outline.specs.Drawing.{Drew};

use jaggies::trim_sheet;
use orphans::clean_sheet;
use outline::outline_sheet;
use outline::rows::asked;
use rules::{Drawing, Facts, Limits, PostConfig, Size};
use saturation::scaling::saturate;

// Saturates the palette, unless it is kept.
#[tactic(auto, unfolding(rules::specs::Run::toned))]
pub fn tone_unless(kept: bool, palette: &mut [f64], k: usize, config: PostConfig)
    requires { (3 * k ≤ length palette.old) × (k ≤ 256) }
    ensures { palette.new ≡ (toned kept config (palette_of palette.old k)).lab }
{
    if !kept {
        saturate(palette, k, config.saturation_beta);
    }
}

// Cleans the sheet, if that is on, and answers how many passes repainted.
#[tactic(auto, using(crate::proofs::Fronts::over_same), unfolding(rules::specs::Sheet::sheet_of, rules::specs::Run::clean_sheet_if, rules::specs::Run::limits_of))]
pub fn clean_if(
    cells: &mut [i32],
    size: Size,
    palette: &[f64],
    k: usize,
    config: PostConfig,
    max_passes: u32,
    work: &mut [u32],
) -> u32
    requires { config.remove_orphans ≡ true → Fit cells.old size.h size.w palette.now k config.orphan_min_region (length work.old) }
    ensures value { result ≡ (clean_sheet_if config.remove_orphans max_passes (palette_of palette.now k) (limits_of config) (sheet_of cells.old size.h size.w)).passes }
    ensures cells_after { cells.new ≡ over (clean_sheet_if config.remove_orphans max_passes (palette_of palette.now k) (limits_of config) (sheet_of cells.old size.h size.w)).sheet.cells cells.old }
{
    if !config.remove_orphans {
        return 0;
    }
    let limits = Limits {
        region: config.orphan_min_region,
        colour: config.orphan_max_delta,
    };
    clean_sheet(cells, size, palette, k, limits, max_passes, work)
}

// Trims corners, if that is on.
#[tactic(auto, using(crate::proofs::Fronts::over_same), unfolding(rules::specs::Sheet::sheet_of))]
pub fn trim_if(cells: &mut [i32], h: usize, w: usize, config: PostConfig, work: &mut [u32])
    requires { (h ≤ 512) × (w ≤ 512) × (h * w ≤ length cells.old) × (8 * (h * w) ≤ length work.old) }
    ensures { cells.new ≡ over (cond config.fix_jaggies (trim (sheet_of cells.old h w)) (sheet_of cells.old h w)).cells cells.old }
{
    if config.fix_jaggies {
        trim_sheet(cells, h, w, work);
    }
}

// Draws the outline, where one is asked for, and answers the facts of the sheet. The call was checked: there is room.
#[tactic(auto, using(crate::proofs::Fronts::over_same), unfolding(rules::specs::Sheet::sheet_of, rules::specs::Run::outline_if, rules::specs::Entries::facts_of))]
pub fn outline_if(
    cells: &mut [i32],
    size: Size,
    palette: &mut [f64],
    k: usize,
    how: Drawing,
    work: &mut [u32],
) -> Facts
    requires room { SheetFits size.h size.w (needed size.h size.w (pads how (sheet_of cells.old size.h size.w))) (length cells.old) (length work.old) }
    requires palette_len { (length palette.old ≡ 768) × (k ≤ 256) }
    ensures { Drew (outline_if (λ i. true) how (palette_of palette.old k) (sheet_of cells.old size.h size.w)) cells.old result cells.new palette.new }
{
    if !asked(how.outline) {
        return Facts::without_outline(size, k, false);
    }
    outline_sheet(cells, size, palette, k, how, work)
}

// Cleans the sheet once more, with one pass, after an outline call.
#[tactic(auto, using(crate::proofs::Fronts::over_same), unfolding(rules::specs::Sheet::sheet_of, rules::specs::Run::clean_sheet_if, rules::specs::Run::cleans_again))]
pub fn clean_again(
    cells: &mut [i32],
    facts: Facts,
    palette: &[f64],
    config: PostConfig,
    work: &mut [u32],
) -> u32
    requires { config.remove_orphans ≡ true → Fit cells.old facts.height facts.width palette.now facts.colours config.orphan_min_region (length work.old) }
    ensures value { result ≡ (clean_sheet_if (cleans_again config) 1 (palette_of palette.now facts.colours) (limits_of config) (sheet_of cells.old facts.height facts.width)).passes }
    ensures cells_after { cells.new ≡ over (clean_sheet_if (cleans_again config) 1 (palette_of palette.now facts.colours) (limits_of config) (sheet_of cells.old facts.height facts.width)).sheet.cells cells.old }
{
    if !asked(config.outline) {
        return 0;
    }
    let size = facts.size();
    let k = facts.colours;
    clean_if(cells, size, palette, k, config, 1, work)
}

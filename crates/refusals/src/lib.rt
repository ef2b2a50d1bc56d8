// The refusals that entries share: rows 1 to 3 and rows 4 to 6, and the conditions of the rows, each a function that answers whether its row applies.
#![tactic(auto)]

ghost use Rattle.std.specs.Prelude.{◌≡◌, [], ◌*◌, ◌≤◌, ◌&&◌, pos, length};
ghost use Rattle.std.specs.Float.Ieee.{le};
ghost use Rattle.std.specs.Int.Signed.{le_z};
ghost use Rattle.base.specs.Places.{any};
ghost use Rattle.base.specs.Refusals.{refusal, answered};
ghost use Rattle.rules.specs.Regions.{at};
ghost use Rattle.rules.specs.Sheet.{needed};
ghost use Rattle.rules.specs.Palette.{palette_of, out_of_range};
ghost use Rattle.rules.specs.InUse.{in_use};
ghost use Rattle.rules.specs.Rows.{too_large, bad_palette, bad_darkening, sheet_rows, palette_rows};
ghost use Rattle.rules.specs.Masks.{grid_refusal};
ghost use Rattle.refusals.specs.Near.{all_near};

use base::Refusal;
pub use color::cielab::between;
use rules::{Entries, Outline};

// The most rows that a sheet has.
const MOST_ROWS: usize = 512;

// Row 1: a side is above 512.
#[tactic(auto, unfolding(rules::specs::Rows::too_large))]
pub fn too_large(h: usize, w: usize) -> bool
    ensures { result ≡ (too_large h w).applies }
{
    h > MOST_ROWS || w > 512
}

// The needed cells: (h + 2) × (w + 2) if padding applies, else h × w.
#[tactic(auto, unfolding(rules::specs::Sheet::needed))]
fn needed(h: usize, w: usize, padding: bool) -> usize
    requires { (h ≤ 512) × (w ≤ 512) }
    ensures { result ≡ needed h w padding }
{
    if padding {
        return (h + 2) * (w + 2);
    }
    h * w
}

// Rows 1 to 3, by the lengths of the shortest lent list and of the work area.
#[tactic(auto, unfolding(rules::specs::Rows::too_large, rules::specs::Rows::too_short, rules::specs::Rows::cramped, rules::specs::Sheet::needed, base::specs::Refusals::refusal, base::specs::Refusals::answered, base::specs::Refusals::unless))]
pub fn sheet_refusal(
    h: usize,
    w: usize,
    padding: bool,
    lent: usize,
    work: usize,
) -> Result<(), Refusal>
    ensures { result ≡ answered (refusal (sheet_rows h w (needed h w padding) lent work)) tt }
{
    if too_large(h, w) {
        return Err(Refusal::SideTooLong);
    }
    let need = needed(h, w, padding);
    if lent < need {
        return Err(Refusal::ListTooShort);
    }
    if work < 8 * need {
        return Err(Refusal::WorkTooShort);
    }
    Ok(())
}

// Rows 1 to 3 of an entry that reads a lent list and fills another, each of one number a cell.
pub fn grid_refusal(h: usize, w: usize, lent: usize, out: usize, work: usize) -> Result<(), Refusal>
    ensures { result ≡ answered (grid_refusal h w lent out work []) tt }
{
    sheet_refusal(h, w, false, lent.min(out), work)
}

// Row 4: there are more than 256 entries, or not 768 doubles.
#[tactic(auto, unfolding(rules::specs::Rows::bad_palette))]
pub fn bad_palette(palette: &[f64], k: usize) -> bool
    ensures { result ≡ (bad_palette (palette_of palette.now k)).applies }
{
    k > 256 || palette.len() != 768
}

// Whether every double in use is from -reach to reach. Each is looked at, so that no branch hangs on one.
pub fn all_near(entries: Entries, reach: f64) -> bool
    ensures { result ≡ all_near reach (in_use entries.entry) }
{
    let least = -reach;
    let used = &entries.lab[..3 * entries.k];
    used.iter()
        .fold(true, |near, x| between(least, reach, *x) & near)
}

// Row 5: one of the doubles in use is NaN or beyond 1024 either way.
pub fn bad_colour(entries: Entries) -> bool
    ensures { result ≡ out_of_range (in_use entries.entry) }
{
    !all_near(entries, 1024.0)
}

// Rows 4 to 6; `bad` tells that a setting is out of range.
#[tactic(auto, unfolding(rules::specs::Rows::bad_palette, rules::specs::Rows::bad_colour, rules::specs::Rows::bad_setting, base::specs::Refusals::refusal, base::specs::Refusals::answered, base::specs::Refusals::unless))]
pub fn palette_refusal(palette: &[f64], k: usize, bad: bool) -> Result<(), Refusal>
    ensures { result ≡ answered (refusal (palette_rows (palette_of palette.now k) bad)) tt }
{
    if bad_palette(palette, k) {
        return Err(Refusal::WrongLength);
    }
    if bad_colour(Entries { lab: palette, k }) {
        return Err(Refusal::ColourOutOfRange);
    }
    let out_of_range = bad;
    if out_of_range {
        return Err(Refusal::SettingOutOfRange);
    }
    Ok(())
}

// Row 6: whether a colour limit is from 0 to 1024, and no NaN.
pub fn limit_in_range(x: f64) -> bool
    ensures { result ≡ Rattle.rules.specs.Palette.between 0 1024 x }
{
    between(0.0, 1024.0, x)
}

// Row 6: the darkening of an outline is NaN or not from 0 to 1.
#[tactic(auto, unfolding(rules::specs::Rows::bad_darkening))]
pub fn bad_darkening(outline: Outline) -> bool
    ensures { result ≡ bad_darkening outline }
{
    match outline {
        Outline::None => false,
        Outline::Auto(darken) => !between(0.0, 1.0, darken),
        Outline::Rgb(_, _, _) => false,
    }
}

// Whether a region limit lets a region be small: the smallest region has one cell.
pub fn some_small(region: i32) -> bool
    ensures { result ≡ le_z (pos 2) region }
{
    2 <= region
}

// Row 7: one of the cells names an entry that is not among the first k.
pub fn bad_index(cells: &[i32], k: usize) -> bool
    requires { k ≤ 256 }
    ensures { result ≡ any (length cells.now) (λ p. le_z (pos k) (at cells.now p)) }
{
    let count = k as i32;
    cells.iter().any(|c| count <= *c)
}

// Cleaning: small regions take the index that most cells of large regions around them have. The sheet is labelled once, and after the first pass only regions beside cells that became large in the pass before are judged.
#![tactic(auto)]

mod passing;
mod rows;
mod starting;

ghost use Rattle.std.specs.Prelude.{◌≡◌, length};
ghost use Rattle.rules.specs.Entries.{orphans_answer, orphans_cells};
ghost use Rattle.rules.specs.Pass.{fresh, clean};
ghost use Rattle.rules.specs.Palette.{palette_of};
ghost use Rattle.rules.specs.Calls.{limits_at, OrphansCall};
ghost use Rattle.rules.specs.Run.{clean_sheet};
ghost use Rattle.rules.specs.Sheet.{lent_sheet, sheet_of, over};
ghost use Rattle.grid.specs.Planes.{cells_of};
ghost use Rattle.labels.specs.Filling.{Sized};
ghost use Rattle.verdicts.specs.Steps.{area_of};
ghost use Rattle.verdicts.specs.Judging.{Indexed};
ghost use Rattle.verdicts.specs.Judges.{rule_by};
ghost use Rattle.orphans.specs.Entry.{Fit};
ghost use Rattle.orphans.specs.Passing.{CleanedTo};

use crate::passing::{first_pass, later_passes};
use crate::rows::{bad_index, bad_limits};
use crate::starting::{any_small, wipe};
use base::Refusal;
use frontier::growing::mark_large;
use grid::tile::Tile;
use grid::{Grid, Neighbourhood};
use labels::label::label_planes;
use refusals::{palette_refusal, sheet_refusal, some_small};
use rules::{Limits, Size};
use verdicts::{Criteria, Judge};

// Cleaning of the sheet in plane 0 with at most `max_passes` passes; one that repaints nothing is the last. The count of those that repaint.
pub fn clean_planes(work: &mut [u32], judge: Judge, max_passes: u32) -> u32
    requires sized { Sized judge.grid.h judge.grid.w work.old }
    requires indexed { Indexed (area_of judge.grid) judge.by.k work.old }
    ensures { CleanedTo (clean (rule_by judge.entry) max_passes (fresh (rule_by judge.entry) (cells_of (area_of judge.entry.grid) work.old))) (area_of judge.entry.grid) judge.entry.by.k work.old work.new result }
{
    let n = judge.grid.h * judge.grid.w;
    wipe(work, 4 * n, n);
    if max_passes == 0 {
        return 0;
    }
    let t = label_planes(work, judge.grid);
    let count = t.regions as usize;
    if !any_small(work, n, count, judge.by.limit) {
        return 0;
    }
    wipe(work, 5 * n, n + count);
    mark_large(work, n, count, judge.by.limit);
    let end = first_pass(work, &judge, count);
    if end == 0 {
        return 0;
    }
    let left = max_passes - 1;
    let more = later_passes(work, &judge, end, left);
    more + 1
}

// Cleaning of a sheet whose arguments were checked, with at most `max_passes` passes. The count of those that repaint.
pub fn clean_sheet(
    cells: &mut [i32],
    size: Size,
    palette: &[f64],
    k: usize,
    limits: Limits,
    max_passes: u32,
    work: &mut [u32],
) -> u32
    requires { Fit cells.old size.h size.w palette.now k limits.region (length work.old) }
    ensures value { result ≡ (clean_sheet max_passes (palette_of palette.now k) limits (sheet_of cells.old size.h size.w)).passes }
    ensures cells_after { cells.new ≡ over (clean_sheet max_passes (palette_of palette.now k) limits (sheet_of cells.old size.h size.w)).sheet.cells cells.old }
{
    if !some_small(limits.region) {
        return 0;
    }
    let h = size.h;
    let w = size.w;
    let limit = limits.region as u32;
    let tile = Tile::whole(h, w);
    tile.load(cells, work);
    let near = Neighbourhood::Eight;
    let by = Criteria {
        k,
        limit,
        max_delta: limits.colour,
    };
    let grid = Grid { h, w, near };
    let count = clean_planes(work, Judge { grid, palette, by }, max_passes);
    tile.store(work, cells);
    count
}

// Small regions take the index that most cells of large regions around them have, in at most `max_passes` passes.
// The count of passes that repaint a cell.
pub fn remove_orphans(
    cells: &mut [i32],
    h: usize,
    w: usize,
    palette: &[f64],
    k: usize,
    orphan_min_region: i32,
    max_passes: u32,
    orphan_max_delta: f64,
    work: &mut [u32],
) -> Result<u32, Refusal>
    ensures { (let call : OrphansCall = record {
      lent = lent_sheet cells.old h w (length work.old);
      palette = palette_of palette.now k;
      limits = limits_at orphan_min_region orphan_max_delta;
      passes = max_passes;
    } in (result ≡ orphans_answer call) × (cells.new ≡ orphans_cells call)) }
{
    sheet_refusal(h, w, false, cells.len(), work.len())?;
    palette_refusal(palette, k, bad_limits(orphan_max_delta, max_passes))?;
    if bad_index(cells, h * w, k, orphan_min_region) {
        return Err(Refusal::NoSuchEntry);
    }
    let limits = Limits {
        region: orphan_min_region,
        colour: orphan_max_delta,
    };
    Ok(clean_sheet(cells, Size { h, w }, palette, k, limits, max_passes, work))
}

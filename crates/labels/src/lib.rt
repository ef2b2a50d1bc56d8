// Labelling: the regions of a sheet.
#![tactic(auto)]

pub mod label;

ghost use Rattle.std.specs.Prelude.{◌≡◌, length};
ghost use Rattle.rules.specs.Masks.{regions_answer, regions_labels};

use crate::label::label_into;
use base::Refusal;
use grid::tile::Tile;
use grid::{Grid, Neighbourhood};
use refusals::grid_refusal;

// The regions numbered so far, and how many places of the order are taken.
#[derive(Clone, Copy)]
pub struct Tally {
    pub regions: u32,
    pub taken: usize,
}

// The regions of a sheet, joined by steps to the eight neighbours: its labels, 0 for transparent, and their number.
pub fn label_regions(
    cells: &[i32],
    h: usize,
    w: usize,
    labels: &mut [u32],
    work: &mut [u32],
) -> Result<u32, Refusal>
    ensures value { result ≡ regions_answer cells.now h w labels.old (length work.old) }
    ensures labels_after { labels.new ≡ regions_labels cells.now h w labels.old (length work.old) }
{
    grid_refusal(h, w, cells.len(), labels.len(), work.len())?;
    Tile::whole(h, w).load(cells, work);
    let near = Neighbourhood::Eight;
    let grid = Grid { h, w, near };
    Ok(label_into(work, grid, labels))
}

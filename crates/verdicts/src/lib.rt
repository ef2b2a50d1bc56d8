// The verdict on one region: it stays, is frozen, or takes the index that most cells of large regions around it have.
#![tactic(auto)]

mod agreeing;
mod large;
pub mod near;
pub mod target;
mod voting;

ghost use Rattle.std.specs.Prelude.{◌≡◌, length};
ghost use Rattle.verdicts.specs.Steps.{area_of};
ghost use Rattle.verdicts.specs.Groups.{Group, GroupedSheet};
ghost use Rattle.verdicts.specs.Targets.{as_number};
ghost use Rattle.verdicts.specs.Judging.{rule_of, Indexed, Unmarked, Sound, Judged};

use crate::agreeing::agreed;
use crate::large::large_around;
use crate::target::{Verdict, by_votes, unanimous};
use crate::voting::{Mark, poll};
use grid::Grid;
pub use large::{Span, region_size, region_span};

// What a verdict goes by: the entries of the palette that are in use, the region limit and the colour limit.
#[derive(Clone, Copy)]
pub struct Criteria {
    pub k: usize,
    pub limit: u32,
    pub max_delta: f64,
}

// What regions are judged by: the grid, the palette and the criteria.
#[derive(Clone, Copy)]
pub struct Judge<'a> {
    pub grid: Grid,
    pub palette: &'a [f64],
    pub by: Criteria,
    pub ghost whole: { length palette.now ≡ 768 },
}

impl Judge<'_> {
    // The verdict on the region with the label at + 1. Votes are marked in plane 5.
    pub fn verdict(&self, work: &mut [u32], at: usize) -> Verdict
        requires grouped_sheet { GroupedSheet self.now.grid work.old × Group (area_of self.now.grid) work.old at }
        requires indexed { Indexed (area_of self.now.grid) self.now.by.k work.old }
        requires sound { Sound (rule_of self.now.grid self.now.by self.now.palette.now) (area_of self.now.grid) work.old × Unmarked (area_of self.now.grid) work.old at }
        ensures { Judged (rule_of self.now.grid self.now.by self.now.palette.now) (area_of self.now.grid) at work.old work.new (as_number result) }
    {
        let n = self.grid.h * self.grid.w;
        let decided = work[6 * n + at] != 0;
        if decided {
            return Verdict::Stays;
        }
        let span = region_span(work, n, at);
        let first = work[2 * n + span.from] as usize;
        let large = work[5 * n + first] != 0;
        if large || !large_around(work, n, self.grid.w, span) {
            return Verdict::Stays;
        }
        let own = work[first] as usize - 1;
        if let Some(paint) = agreed(work, self.grid, span) {
            let c = paint as usize - 1;
            return unanimous(self, own, c);
        }
        let word = at as u32 + 2;
        let mut counts = [0u32; 256];
        poll(work, self.grid, span, Mark { word }, &mut counts);
        by_votes(self, &counts, own)
    }
}

// A pass: what is judged, then repainted, then absorbed. The log names the regions that become large in it.
ghost use Rattle.std.specs.Prelude.{◌≤◌};
ghost use Rattle.rules.specs.Pass.{clean};
ghost use Rattle.verdicts.specs.Steps.{area_of};
ghost use Rattle.verdicts.specs.Judging.{state_of};
ghost use Rattle.verdicts.specs.Judges.{rule_by};
ghost use Rattle.orphans.specs.Starting.{AtStart};
ghost use Rattle.orphans.specs.Passing.{AtFrontier, PassMade, CleanedTo};

use frontier::growing::grow;
use frontier::judging::{judge_all, judge_frontier};
use verdicts::Judge;

// The first pass, which judges all `count` regions. The log's end then: 0 if nothing is repainted.
pub fn first_pass(work: &mut [u32], judge: &Judge, count: usize) -> usize
    requires { AtStart judge.now.grid judge.now.by work.old count }
    ensures { PassMade (rule_by judge.now) judge.now.grid judge.now.by.k 0 work.old work.new result }
{
    let mid = judge_all(work, judge, count);
    if mid == 0 {
        return 0;
    }
    grow(work, judge.grid, 0, mid)
}

// A later pass, which judges beside the regions of the log from `begin` on and before `end`. The log's end then: `end` if nothing is repainted.
fn later_pass(work: &mut [u32], judge: &Judge, begin: usize, end: usize) -> usize
    requires { AtFrontier (rule_by judge.now) judge.now.grid judge.now.by.k begin end work.old }
    ensures { PassMade (rule_by judge.now) judge.now.grid judge.now.by.k end work.old work.new result }
{
    let mid = judge_frontier(work, judge, begin, end);
    let idle = mid == end;
    if idle {
        return end;
    }
    grow(work, judge.grid, end, mid)
}

// At most `left` passes after the first, which filled the log up to `first`; one that repaints nothing is the last. The count of those that repaint.
pub fn later_passes(work: &mut [u32], judge: &Judge, first: usize, left: u32) -> u32
    requires { AtFrontier (rule_by judge.now) judge.now.grid judge.now.by.k 0 first work.old }
    ensures { CleanedTo (clean (rule_by judge.now) left (state_of (area_of judge.now.grid) work.old)) (area_of judge.now.grid) judge.now.by.k work.old work.new result × (result ≤ left) }
{
    let mut begin = 0;
    let mut end = first;
    for made in 0..left {
        let last = later_pass(work, judge, begin, end);
        if last == end {
            return made;
        }
        begin = end;
        end = last;
    }
    left
}

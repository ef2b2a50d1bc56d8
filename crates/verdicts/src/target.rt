// Which index a region takes, from the votes that each index has.
ghost use Rattle.std.specs.Prelude.{◌≡◌, ◌≤◌, ◌<◌};
ghost use Rattle.verdicts.specs.Targets.{entry_distance, candidate, peak, nearest, verdict_on, as_number, decision, by_votes};

use crate::Judge;
use color::cielab::{closer_than, distance, entry};
use color::least::{Least, lower};

// What becomes of a region: it stays, is frozen, or takes an index.
#[derive(Clone, Copy, Debug, PartialEq, Eq)]
pub enum Verdict {
    Stays,
    Frozen,
    Takes(u8),
}

impl Verdict {
    // The number that the work area holds for it: 0 it stays, 1 it is frozen, c + 2 it takes the index c.
    #[tactic(auto, unfolding(crate::specs::Targets::as_number))]
    pub fn as_number(self) -> u32
        ensures { result ≡ as_number self }
    {
        match self {
            Verdict::Stays => 0,
            Verdict::Frozen => 1,
            Verdict::Takes(c) => u32::from(c) + 2,
        }
    }
}

// The most votes that an index below k has.
fn most(counts: &[u32; 256], k: usize) -> u32
    requires { k ≤ 256 }
    ensures { result ≡ peak counts.now k }
{
    let mut best = 0;
    for votes in &counts[..k] {
        best = u32::max(best, *votes);
    }
    best
}

// Of the indices in use with m votes the nearest to `own`, the lowest of several.
fn nearest(judge: &Judge, counts: &[u32; 256], m: u32, own: usize) -> Option<Least>
    requires { (judge.now.by.k ≤ 256) × (own < judge.now.by.k) }
    ensures { result ≡ nearest (entry_distance judge.now.palette.now own) counts.now m judge.now.by.k }
{
    let from = entry(judge.palette, own);
    let mut best = None;
    for (index, votes) in counts[..judge.by.k].iter().enumerate() {
        if *votes == m {
            let value = distance(from, entry(judge.palette, index));
            let next = Least { at: index, value };
            best = Some(lower(best, next));
        }
    }
    best
}

// A region takes its target c if that is near enough, else it is frozen.
#[tactic(auto, unfolding(crate::specs::Targets::verdict_on))]
fn decide(c: usize, near: bool) -> Verdict
    requires { c < 256 }
    ensures { result ≡ verdict_on c near }
{
    if near {
        Verdict::Takes(c as u8)
    } else {
        Verdict::Frozen
    }
}

// What becomes of a region of the index `own` whose votes are all for c.
pub fn unanimous(judge: &Judge, own: usize, c: usize) -> Verdict
    requires { (own < 256) × (c < 256) }
    ensures { result ≡ decision (Some (candidate c (entry_distance judge.now.palette.now own c))) judge.now.by.max_delta }
{
    let near = closer_than(
        entry(judge.palette, own),
        entry(judge.palette, c),
        judge.by.max_delta,
    );
    decide(c, near)
}

// What becomes of a region of the index `own` with these votes.
pub fn by_votes(judge: &Judge, counts: &[u32; 256], own: usize) -> Verdict
    requires { (judge.now.by.k ≤ 256) × (own < judge.now.by.k) }
    ensures { result ≡ by_votes (entry_distance judge.now.palette.now own) counts.now judge.now.by.k judge.now.by.max_delta }
{
    let m = most(counts, judge.by.k);
    if m == 0 {
        return Verdict::Stays;
    }
    match nearest(judge, counts, m, own) {
        Some(target) => decide(target.at, target.value < judge.by.max_delta),
        None => Verdict::Stays,
    }
}

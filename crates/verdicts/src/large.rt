// Regions of the work area: where their places stand, and whether a large cell may be beside a run of places, which is asked before a poll, since that costs more.
ghost use Rattle.std.specs.Prelude.{◌≡◌, true, false, ℕ, suc, ◌+◌, ◌-◌, ◌*◌, ◌≤◌, ◌<◌, length, slice_index, EachIndex};
ghost use Rattle.rules.specs.Grid.{eight};
ghost use Rattle.grid.specs.Planes.{plane, end_of};
ghost use Rattle.verdicts.specs.Groups.{Planes, Group, Stretch};

use crate::near::any_near;

// Where the places of the regions up to a label end in the order.
fn region_end(work: &[u32], n: usize, label: usize) -> u32
    requires { (label ≤ n) × (8 * n ≤ length work.now) }
    ensures { result ≡ end_of n work.now label }
{
    if label == 0 {
        return 0;
    }
    let last = label - 1;
    work[3 * n + last]
}

// Where the places of a region stand in the order: from `from` on and before `to`.
#[derive(Clone, Copy, Debug, PartialEq, Eq)]
pub struct Span {
    pub from: usize,
    pub to: usize,
}

impl Span {
    // The number of its places.
    pub fn size(self) -> usize
        requires { self.from ≤ self.to }
        ensures { result ≡ self.to - self.from }
    {
        let Span { from, to } = self;
        to - from
    }

    // Its places, one after the other.
    pub fn places(self, work: &[u32], n: usize) -> &[u32]
        requires { Planes n work.now × Stretch n work.now self }
        ensures count { length result.now ≡ self.to - self.from }
        ensures each { EachIndex result.now (λ i. slice_index result.now i ≡ plane n 2 work.now (self.from + i)) }
        ensures within { EachIndex result.now (λ i. slice_index result.now i < n) }
    {
        let order = 2 * n;
        &work[order + self.from..order + self.to]
    }
}

// The places with the label at + 1.
pub fn region_span(work: &[u32], n: usize, at: usize) -> Span
    requires { Planes n work.now × Group n work.now at }
    ensures { (result.from ≡ end_of n work.now at) × (result.to ≡ end_of n work.now (suc at)) }
{
    Span {
        from: region_end(work, n, at) as usize,
        to: region_end(work, n, at + 1) as usize,
    }
}

// The number of places with the label at + 1.
pub fn region_size(work: &[u32], n: usize, at: usize) -> u32
    requires { Planes n work.now × Group n work.now at }
    ensures { result ≡ end_of n work.now (suc at) - end_of n work.now at }
{
    region_span(work, n, at).size() as u32
}

// Whether a large cell may be beside one of the places of a span.
pub fn large_around(work: &[u32], n: usize, w: usize, span: Span) -> bool
    requires { Planes n work.now × (w ≤ 514) × Stretch n work.now span }
    ensures { result ≡ false → (i : ℕ) → span.from ≤ i → i < span.to → (q : ℕ) → eight w (plane n 2 work.now i) q ≡ true → plane n 5 work.now q ≡ 0 }
{
    let places = span.places(work, n);
    for p in places {
        if any_near(n, w, *p as usize, |q| work[5 * n + q] != 0) {
            return true;
        }
    }
    false
}

// The ring: every transparent cell with an opaque one above, below, left or right.
ghost use Rattle.std.specs.Prelude.{◌≡◌, cond, ◌||◌, ◌+◌, ◌*◌, ◌<◌, ◌≤◌, eqb, pos, length, get_or, set};
ghost use Rattle.base.specs.Places.{any, table};
ghost use Rattle.base.specs.Outputs.{filled};
ghost use Rattle.rules.specs.Regions.{at};
ghost use Rattle.outline.specs.Rows.{stretch, back, ahead};

use crate::canvas::{Lent, solid};

// The place a step before p, the i-th of its line; p itself for the first.
#[tactic(auto, unfolding(crate::specs::Rows::back))]
fn back(p: usize, step: usize, i: usize) -> usize
    requires { 0 < i → step ≤ p }
    ensures { result ≡ back p step i }
{
    if i == 0 {
        return p;
    }
    p - step
}

// The place a step after p, the i-th of n in its line; p itself for the last.
#[tactic(auto, unfolding(crate::specs::Rows::ahead))]
fn ahead(p: usize, step: usize, i: usize, n: usize) -> usize
    requires { (i < n) × (p ≤ 264196) × (step ≤ 514) }
    ensures { result ≡ ahead p step i n }
{
    if i + 1 < n {
        return p + step;
    }
    p
}

// Whether one of two holds. Of a row of these the compiler makes vector code, of `|` it does not.
fn either(a: bool, b: bool) -> bool
    ensures { result ≡ (a || b) }
{
    a || b
}

// A test as a number, 1 or 0; likewise.
fn mark(b: bool) -> u32
    ensures { result ≡ cond b 1 0 }
{
    if b { 1 } else { 0 }
}

impl Lent<'_> {
    ghost use Rattle.rules.specs.Outline.{ring, has_ring};
    ghost use Rattle.outline.specs.Standing.{sheet_on};

    // Whether the cell in row y and column x is of the ring. Off the sheet the cell itself is read, which adds nothing, so that no read hangs on a test.
    fn ring_at(self, y: usize, x: usize) -> bool
        requires { (y < self.h) × (x < self.w) }
        ensures { result ≡ ring (sheet_on self.entry) (y * self.entry.w + x) }
    {
        let Lent { cells, h, w } = self;
        let p = y * w + x;
        let above = solid(cells, back(p, w, y));
        let below = solid(cells, ahead(p, w, y, h));
        let left = solid(cells, back(p, 1, x));
        let right = solid(cells, ahead(p, 1, x, w));
        let near = either(either(above, below), either(left, right));
        if solid(cells, p) {
            return false;
        }
        near
    }

    // Whether a cell of row y is of the ring. Its ends are apart: between them every cell has one to its left and one to its right.
    fn row_has_ring(self, y: usize) -> bool
        requires { (y < self.h) × (0 < self.w) }
        ensures { result ≡ any self.entry.w (λ x. ring (sheet_on self.entry) (y * self.entry.w + x)) }
    {
        let last = self.w - 1;
        let mut found = self.ring_at(y, 0);
        for x in 1..last {
            found = either(self.ring_at(y, x), found);
        }
        either(self.ring_at(y, last), found)
    }

    // Whether there is a ring.
    pub fn has_ring(self) -> bool
        ensures { result ≡ has_ring (sheet_on self.entry) }
    {
        if self.w == 0 {
            return false;
        }
        (0..self.h).any(|y| self.row_has_ring(y))
    }

    // Marks the cell in row y and column x.
    fn mark_cell(self, y: usize, x: usize, marks: &mut [u32])
        requires { (y < self.h) × (x < self.w) × (self.h * self.w ≤ length marks.old) }
        ensures { marks.new ≡ set marks.old (y * self.entry.w + x) (cond (ring (sheet_on self.entry) (y * self.entry.w + x)) 1 0) }
    {
        let p = y * self.w + x;
        marks[p] = mark(self.ring_at(y, x));
    }

    // Marks row y. Its ends are apart: between them every cell has one to its left and one to its right.
    fn mark_row(self, y: usize, marks: &mut [u32])
        requires { (y < self.h) × (self.h * self.w ≤ length marks.old) }
        ensures { marks.new ≡ stretch (y * self.entry.w) self.entry.w (λ p. cond (ring (sheet_on self.entry) p) 1 0) marks.old }
    {
        if self.w == 0 {
            return;
        }
        let last = self.w - 1;
        for x in 1..last {
            self.mark_cell(y, x, marks);
        }
        self.mark_cell(y, 0, marks);
        self.mark_cell(y, last, marks);
    }

    // Marks the cells of the ring by 1, all others by 0.
    pub fn mark_ring(self, marks: &mut [u32])
        requires { self.h * self.w ≤ length marks.old }
        ensures { marks.new ≡ filled (self.entry.h * self.entry.w) (λ p. cond (ring (sheet_on self.entry) p) 1 0) marks.old }
    {
        for y in 0..self.h {
            self.mark_row(y, marks);
        }
    }
}

// The cell c, or the ink where it is marked.
fn tinted(m: u32, c: i32, ink: i32) -> i32
    ensures { result ≡ cond (eqb m 0) c ink }
{
    if m == 0 { c } else { ink }
}

// Gives the marked ones of the cells an index. Every cell is written, so that no write hangs on a test.
pub fn ink(cells: &mut [i32], marks: &[u32], index: usize)
    requires { (length cells.old ≤ length marks.now) × (index ≤ 256) }
    ensures { cells.new ≡ table (length cells.old) (λ p. cond (eqb (get_or marks.now p 0) 0) (at cells.old p) (pos index)) }
{
    let ink = index as i32;
    for (p, cell) in cells.iter_mut().enumerate() {
        *cell = tinted(marks[p], *cell, ink);
    }
}

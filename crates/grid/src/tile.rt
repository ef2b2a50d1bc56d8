// Cells between a sheet and plane 0 of the work area: a tile of h by w cells, or the whole sheet.
ghost use Rattle.std.specs.Prelude.{◌≡◌, List, ℕ, ◌+◌, ◌*◌, ◌<◌, ◌≤◌, ℤ};
ghost use Rattle.base.specs.Outputs.{filled};
ghost use Rattle.grid.specs.Planes.{plane, paint_of};
ghost use Rattle.grid.specs.Tiles.{whole_sheet, Lies, tile_paint, PaintsTo, repaint, stored_to, stored};

// The cells of a sheet with rows of `stride` cells from the place `start` on: h rows of w of them.
#[derive(Clone, Copy)]
pub struct Tile {
    pub start: usize,
    pub stride: usize,
    pub h: usize,
    pub w: usize,
}

// The index of a palette's first entry: a cell below it is transparent.
const FIRST_ENTRY: i32 = 0;

// 0 for a transparent cell, index + 1 otherwise.
#[tactic(auto, unfolding(crate::specs::Planes::paint_of))]
pub fn paint(cell: i32) -> u32
    ensures { (result ≡ paint_of cell) × (result ≤ 2147483648) }
{
    if cell < FIRST_ENTRY {
        0
    } else {
        cell as u32 + 1
    }
}

// The cell of a paint; 0 leaves the old one.
#[tactic(auto, unfolding(crate::specs::Tiles::repaint))]
fn repainted(paint: u32, old: i32) -> i32
    requires { paint ≤ 2147483648 }
    ensures { result ≡ repaint paint old }
{
    if paint == 0 { old } else { (paint - 1) as i32 }
}

impl Tile {
    // A whole sheet of h rows of w cells.
    pub fn whole(h: usize, w: usize) -> Self
        ensures { result ≡ whole_sheet h w }
    {
        Tile {
            start: 0,
            stride: w,
            h,
            w,
        }
    }

    // Row y of the tile goes to plane 0.
    fn load_row(self, cells: &[i32], work: &mut [u32], y: usize)
        requires lies { Lies cells.now work.old self }
        requires y_lt_h { y < self.h }
        ensures by_index { (l : List ℕ) → work.old ≡ filled (y * self.w) (tile_paint cells.now self) l → work.new ≡ filled ((y + 1) * self.w) (tile_paint cells.now self) l }
        ensures paints { PaintsTo (y * self.w) work.old → PaintsTo ((y + 1) * self.w) work.new }
    {
        let from = self.start + y * self.stride;
        let to = y * self.w;
        for x in 0..self.w {
            let i = from + x;
            let p = to + x;
            work[p] = paint(cells[i]);
        }
    }

    // The tile goes to plane 0.
    pub fn load(self, cells: &[i32], work: &mut [u32])
        requires { Lies cells.now work.old self }
        ensures work_after { work.new ≡ filled (self.h * self.w) (tile_paint cells.now self) work.old }
        ensures paints { PaintsTo (self.h * self.w) work.new }
    {
        for y in 0..self.h {
            self.load_row(cells, work, y);
        }
    }

    // Row y of the tile comes from plane 0.
    fn store_row(self, work: &[u32], cells: &mut [i32], y: usize)
        requires lies { Lies cells.old work.now self }
        requires by_index { (p : ℕ) → p < self.h * self.w → plane (self.h * self.w) 0 work.now p ≤ 2147483648 }
        requires y_lt_h { y < self.h }
        ensures { (l : List ℤ) → cells.old ≡ stored_to (y * self.w) l work.now self → cells.new ≡ stored_to ((y + 1) * self.w) l work.now self }
    {
        let from = self.start + y * self.stride;
        let to = y * self.w;
        for x in 0..self.w {
            let i = from + x;
            let p = to + x;
            cells[i] = repainted(work[p], cells[i]);
        }
    }

    // The tile comes from plane 0: opaque places get their index, transparent ones keep the cell that they had.
    pub fn store(self, work: &[u32], cells: &mut [i32])
        requires lies { Lies cells.old work.now self }
        requires by_index { (p : ℕ) → p < self.h * self.w → plane (self.h * self.w) 0 work.now p ≤ 2147483648 }
        ensures { cells.new ≡ stored cells.old work.now self }
    {
        for y in 0..self.h {
            self.store_row(work, cells, y);
        }
    }
}

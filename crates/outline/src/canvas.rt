// The sheet that an outline is drawn on: whether an opaque cell touches an edge, and padding in place.
ghost use Rattle.std.specs.Prelude.{◌≡◌, cond, ℕ, ◌+◌, ◌-◌, ◌*◌, ◌<◌, ◌≤◌, negsuc, length, set};
ghost use Rattle.base.specs.Places.{any};
ghost use Rattle.base.specs.Outputs.{filled};
ghost use Rattle.rules.specs.Sheet.{sheet_of};
ghost use Rattle.rules.specs.Regions.{at, opaque};
ghost use Rattle.rules.specs.Outline.{padded_at};
ghost use Rattle.outline.specs.Room.{Present, from_one, on_sheet};
ghost use Rattle.outline.specs.Rows.{stretch};

// A sheet of h rows of w cells, padded or not, at the front of a lent list.
#[derive(Clone, Copy)]
pub struct Lent<'a> {
    pub cells: &'a [i32],
    pub h: usize,
    pub w: usize,
    pub ghost present: { Present cells.now h w },
}

// Whether the cell at p is opaque.
#[tactic(auto, unfolding(rules::specs::Regions::opaque, rules::specs::Regions::at))]
pub fn solid(cells: &[i32], p: usize) -> bool
    requires { p < length cells.now }
    ensures { result ≡ opaque cells.now p }
{
    cells[p] >= 0
}

// Whether one of some cells is opaque, from one on in equal steps.
fn any_solid(cells: &[i32], from: usize, step: usize, count: usize) -> bool
    requires { (i : ℕ) → i < count → from + i * step < length cells.now }
    ensures { result ≡ any count (λ i. opaque cells.now (from + i * step)) }
{
    (0..count).any(|i| solid(cells, from + i * step))
}

// Whether a is from 1 to len.
#[tactic(auto, unfolding(crate::specs::Room::from_one))]
fn from_one(len: usize, a: usize) -> bool
    ensures { result ≡ from_one len a }
{
    1 <= a && a <= len
}

// Whether row y and column x of the padded sheet lie on the sheet itself.
#[tactic(auto, unfolding(crate::specs::Room::on_sheet))]
fn on_sheet(h: usize, w: usize, y: usize, x: usize) -> bool
    ensures { result ≡ on_sheet h w y x }
{
    from_one(h, y) && from_one(w, x)
}

impl Lent<'_> {
    ghost use Rattle.rules.specs.Outline.{touches};
    ghost use Rattle.outline.specs.Standing.{sheet_on};

    // Whether an opaque cell touches an edge.
    pub fn touches_edge(self) -> bool
        ensures { result ≡ touches (sheet_on self.entry) }
    {
        let Lent { cells, h, w } = self;
        let n = h * w;
        if n == 0 {
            return false;
        }
        let last = n - w;
        any_solid(cells, 0, 1, w)
            || any_solid(cells, last, 1, w)
            || any_solid(cells, 0, w, h)
            || any_solid(cells, w - 1, w, h)
    }

    // The cell in row y and column x of the sheet with one cell of -1 on every side.
    #[tactic(auto, using(crate::proofs::Padding::on_there), unfolding(crate::specs::Room::on_sheet, crate::specs::Room::from_one))]
    fn padded_cell(self, y: usize, x: usize) -> i32
        requires { x < self.w + 2 }
        ensures { result ≡ padded_at (sheet_on self.entry) (y * (self.entry.w + 2) + x) }
    {
        if on_sheet(self.h, self.w, y, x) {
            let from = (y - 1) * self.w + (x - 1);
            self.cells[from]
        } else {
            -1
        }
    }
}

// Writes the cell in row y and column x of the padded sheet.
fn pad_cell(cells: &mut [i32], h: usize, w: usize, y: usize, x: usize)
    requires h_bound { (h ≤ 512) × (w ≤ 512) × ((h + 2) * (w + 2) ≤ length cells.old) }
    requires y_bound { (y < h + 2) × (x < w + 2) }
    ensures { cells.new ≡ set cells.old (y * (w + 2) + x) (padded_at (sheet_of cells.old h w) (y * (w + 2) + x)) }
{
    let p = y * (w + 2) + x;
    let on = Lent { cells, h, w };
    let c = on.padded_cell(y, x);
    cells[p] = c;
}

// Writes row y of the padded sheet: what it is made of lies below it. Its ends are apart: between them all cells lie on the sheet, or none.
fn pad_row(cells: &mut [i32], h: usize, w: usize, y: usize)
    requires h_bound { (h ≤ 512) × (w ≤ 512) × ((h + 2) * (w + 2) ≤ length cells.old) }
    requires y_bound { y < h + 2 }
    ensures { cells.new ≡ stretch (y * (w + 2)) (w + 2) (padded_at (sheet_of cells.old h w)) cells.old }
{
    let last = w + 1;
    for x in 1..last {
        pad_cell(cells, h, w, y, x);
    }
    pad_cell(cells, h, w, y, 0);
    pad_cell(cells, h, w, y, last);
}

// Puts one cell of -1 on every side, in place: the last row is written first, and what is still to be read lies below it.
pub fn pad(cells: &mut [i32], h: usize, w: usize)
    requires { (h ≤ 512) × (w ≤ 512) × ((h + 2) * (w + 2) ≤ length cells.old) }
    ensures { cells.new ≡ filled ((h + 2) * (w + 2)) (padded_at (sheet_of cells.old h w)) cells.old }
{
    for y in (0..h + 2).rev() {
        pad_row(cells, h, w, y);
    }
}

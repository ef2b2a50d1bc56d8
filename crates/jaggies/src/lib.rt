// Corner trimming: the jagged corners of one-cell staircases. The sheet is written over from its first row on; the rows that a test
// may still read, as they were, stand in the first 3 * w numbers of the work area: 0 for a transparent cell, index + 1 otherwise.
#![tactic(auto)]

ghost use Rattle.std.specs.Prelude.{◌≡◌, IfSome, false, List, ℕ, ◌+◌, ◌*◌, ◌≤◌, ◌<◌, ℤ, length, unsigned_abs};
ghost use Rattle.rules.specs.Sheet.{lent_sheet, sheet_of, over};
ghost use Rattle.rules.specs.Calls.{JaggiesCall};
ghost use Rattle.rules.specs.Corners.{look, finds, arms, around, goes_on, corners, trimmed_by, trim};
ghost use Rattle.rules.specs.Entries.{jaggies_answer, jaggies_cells};
ghost use Rattle.grid.specs.Planes.{paint_of, cell_of};
ghost use Rattle.jaggies.specs.Rows.{spot_place, row_end, spot_at, largest_paint, old_paint, SpotFits, OldRows, Trimmed, Moved, Short, way, found_paint, cut, toward, OnBoth};

use base::Refusal;
use grid::tile::paint;
use grid::{Grid, Neighbourhood};
use refusals::sheet_refusal;

// What `look` gives for a transparent cell.
const TRANSPARENT: u32 = 0;

// Row y and column x of a sheet of h rows of w cells.
#[derive(Clone, Copy)]
struct Spot {
    y: usize,
    x: usize,
    h: usize,
    w: usize,
}

// The ways from a spot to the two arms of a corner, each one place on or one place back.
#[derive(Clone, Copy)]
struct Corner {
    sy: i32,
    sx: i32,
    ghost rows: { unsigned_abs sy ≡ 1 },
    ghost cols: { unsigned_abs sx ≡ 1 },
}

// What the tests from a spot see: the sheet, which is written over up to the spot, and the last of its rows as they were.
#[derive(Clone, Copy)]
struct View<'a> {
    cells: &'a [i32],
    work: &'a [u32],
    at: Spot,
    ghost room: { SpotFits cells.now work.now at },
}

// The way from a spot of the paint a to an arm of its corner: on, if the next cell that way has the paint too, else back.
#[tactic(auto, unfolding(crate::specs::Rows::toward))]
fn toward(next: u32, a: u32) -> i32
    ensures { result ≡ toward next a }
{
    if next == a { 1 } else { -1 }
}

// Whether the paint a stands on one side alone. Where it does not, it stands on both or on neither.
fn on_one(x: u32, y: u32, a: u32) -> bool
    ensures { result ≡ false → OnBoth x y a }
{
    if x == a { y != a } else { y == a }
}

impl View<'_> {
    ghost use Rattle.jaggies.specs.Tests.{Tells};

    // The paint that stood at the place q; the rows in the work area end with the spot's.
    fn was(&self, q: usize) -> u32
        requires { (q < self.now.at.h * self.now.at.w) × (row_end self.now.at ≤ q + 3 * self.now.at.w) }
        ensures { (result ≡ old_paint self.now.cells.now self.now.work.now self.now.at.w (row_end self.now.at) q) × (result ≤ largest_paint) }
    {
        let w = self.at.w;
        let end = self.at.y * w + w;
        let replaced = q < end;
        if replaced {
            return self.work[q + 3 * w - end];
        }
        paint(self.cells[q])
    }

    // The paint of the cell that a step from the spot finds; off the grid it is 0.
    fn look(&self, dy: i32, dx: i32) -> u32
        requires { Short dy × Short dx }
        ensures sees { Tells self.now result (λ s p. found_paint (look s p dy dx)) }
        ensures upper_bound { result ≤ largest_paint }
    {
        let at = self.at;
        let grid = Grid {
            h: at.h,
            w: at.w,
            near: Neighbourhood::Eight,
        };
        match grid.neighbour(at.y, at.x, dy, dx) {
            Some(q) => self.was(q),
            None => 0,
        }
    }

    // Whether a step from the spot finds the paint a.
    fn finds(&self, dy: i32, dx: i32, a: u32) -> bool
        requires { Short dy × Short dx × (0 < a) }
        ensures { Tells self.now result (λ s p. finds s p dy dx (cell_of a)) }
    {
        self.look(dy, dx) == a
    }

    // Both arms of the corner have the paint a.
    fn arms(&self, c: Corner, a: u32) -> bool
        requires { 0 < a }
        ensures { Tells self.now result (λ s p. arms s p (way c.sy c.sx) (cell_of a)) }
    {
        self.finds(0, c.sx, a) && self.finds(c.sy, 0, a)
    }

    // The other six neighbours have the paint b.
    fn around(&self, c: Corner, b: u32) -> bool
        requires { 0 < b }
        ensures { Tells self.now result (λ s p. around s p (way c.sy c.sx) (cell_of b)) }
    {
        let oy = -c.sy;
        let ox = -c.sx;
        self.finds(oy, ox, b)
            && self.finds(oy, 0, b)
            && self.finds(oy, c.sx, b)
            && self.finds(0, ox, b)
            && self.finds(c.sy, ox, b)
            && self.finds(c.sy, c.sx, b)
    }

    // The staircase of the paint a goes on beyond both arms.
    fn goes_on(&self, c: Corner, a: u32) -> bool
        requires { 0 < a }
        ensures { Tells self.now result (λ s p. goes_on s p (way c.sy c.sx) (cell_of a)) }
    {
        self.finds(-c.sy, c.sx + c.sx, a) && self.finds(c.sy + c.sy, -c.sx, a)
    }

    // What the spot, of the paint a, becomes if it is this corner: the paint around it.
    fn cut(&self, c: Corner, a: u32) -> Option<u32>
        requires { 0 < a }
        ensures sees { Tells self.now result (λ s p. cut s p (way c.sy c.sx) (cell_of a)) }
        ensures bounds { IfSome result (λ b. (0 < b) × (b ≤ largest_paint)) }
    {
        let b = self.look(-c.sy, -c.sx);
        if b == TRANSPARENT || b == a {
            return None;
        }
        if self.arms(c, a) && self.around(c, b) && self.goes_on(c, a) {
            return Some(b);
        }
        None
    }

    // What the spot, of the paint a, becomes. It can be one corner at most: at a corner one of the cells beside the spot, and one of
    // those above and below it, has its paint.
    fn trimmed(&self, a: u32) -> u32
        requires { (0 < a) × (a ≤ largest_paint) }
        ensures sees { Tells self.now result (λ s p. paint_of (trimmed_by s p corners (cell_of a))) }
        ensures result_nonzero { (0 < result) × (result ≤ largest_paint) }
    {
        let left = self.look(0, -1);
        let right = self.look(0, 1);
        if left == right {
            return a;
        }
        let above = self.look(-1, 0);
        let below = self.look(1, 0);
        if !(on_one(left, right, a) & on_one(above, below, a)) {
            return a;
        }
        let corner = Corner {
            sy: toward(below, a),
            sx: toward(right, a),
        };
        self.cut(corner, a).unwrap_or(a)
    }
}

// One spot of the sheet.
fn trim_cell(cells: &mut [i32], work: &[u32], at: Spot)
    requires { SpotFits cells.old work.now at }
    ensures { (old : List ℤ) → OldRows old work.now at.w (row_end at) → Trimmed old at.h at.w (spot_place at) cells.old → Trimmed old at.h at.w (spot_place at + 1) cells.new }
{
    let w = at.w;
    let x = at.x;
    let a = work[2 * w + x];
    if a == 0 {
        return;
    }
    let view = View { cells, work, at };
    let b = view.trimmed(a);
    let p = at.y * w + x;
    cells[p] = (b - 1) as i32;
}

// One row of the sheet.
fn trim_row(cells: &mut [i32], work: &[u32], h: usize, w: usize, y: usize)
    requires { (x : ℕ) → x < w → SpotFits cells.old work.now (spot_at h w y x) }
    ensures { (old : List ℤ) → OldRows old work.now w (y * w + w) → Trimmed old h w (y * w) cells.old → Trimmed old h w (y * w + w) cells.new }
{
    for x in 0..w {
        trim_cell(cells, work, Spot { y, x, h, w });
    }
}

// The rows in the work area move up by one, and the row that begins at `end` comes after them.
fn advance(cells: &[i32], work: &mut [u32], w: usize, end: usize)
    requires { (end + w ≤ length cells.now) × (3 * w ≤ length work.old) }
    ensures { Moved cells.now w end work.old work.new w }
{
    for i in 0..w {
        let upper = w + i;
        let lower = 2 * w + i;
        work[i] = work[upper];
        work[upper] = work[lower];
        work[lower] = paint(cells[end + i]);
    }
}

// The corners of a sheet are trimmed, by tests on the sheet as it was. The work area holds 8 numbers for each cell.
pub fn trim_sheet(cells: &mut [i32], h: usize, w: usize, work: &mut [u32])
    requires { (h ≤ 512) × (w ≤ 512) × (h * w ≤ length cells.old) × (8 * (h * w) ≤ length work.old) }
    ensures { cells.new ≡ over (trim (sheet_of cells.old h w)).cells cells.old }
{
    if h < 4 {
        return;
    }
    if w < 4 {
        return;
    }
    for y in 0..h {
        let end = y * w;
        advance(cells, work, w, end);
        trim_row(cells, work, h, w, y);
    }
}

// Corner trimming over the lent cells. Below 4 rows or columns nothing changes. The work area holds 8 numbers for each cell.
pub fn fix_jaggies(cells: &mut [i32], h: usize, w: usize, work: &mut [u32]) -> Result<(), Refusal>
    ensures { (let call : JaggiesCall = record { lent = lent_sheet cells.old h w (length work.old) } in
        (result ≡ jaggies_answer call) × (cells.new ≡ jaggies_cells call)) }
{
    sheet_refusal(h, w, false, cells.len(), work.len())?;
    trim_sheet(cells, h, w, work);
    Ok(())
}

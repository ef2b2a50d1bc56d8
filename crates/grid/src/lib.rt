// Cells of a grid and their neighbours, and the planes of the work area.
#![tactic(auto)]

pub mod tile;

ghost use Rattle.std.specs.Prelude.{◌≡◌, ◌*◌, ◌/◌, ◌%◌, ◌≤◌, ◌<◌, pos, negsuc, ◌+ℤ◌, true, false};
ghost use Rattle.std.specs.Int.Signed.{le_z};
ghost use Rattle.rules.specs.Grid.{on_edge, on_side, step_to};
ghost use Rattle.grid.specs.Steps.{steps_of, Single, Inner};

// Which of the eight steps lead from a cell to its neighbours: the first four, or all.
#[derive(Clone, Copy, Debug, PartialEq, Eq)]
pub enum Neighbourhood {
    Four,
    Eight,
}

impl Neighbourhood {
    // How many these are. By it the compiler sees that there are 4 or 8.
    #[tactic(auto, unfolding(crate::specs::Steps::steps_of))]
    pub fn steps(self) -> usize
        ensures { result ≡ steps_of self }
    {
        match self {
            Neighbourhood::Four => 4,
            Neighbourhood::Eight => 8,
        }
    }
}

// A grid of h rows of w cells, at most 514 each, and which cells are neighbours on it.
#[derive(Clone, Copy)]
pub struct Grid {
    pub h: usize,
    pub w: usize,
    pub near: Neighbourhood,
    pub ghost range: { (h ≤ 514) × (w ≤ 514) },
}

// A step from the place p, by dy rows and dx columns; unless `border`, p lies on no edge.
#[derive(Clone, Copy)]
pub struct Move {
    pub p: usize,
    pub dy: i32,
    pub dx: i32,
    pub border: bool,
}

// The eight steps, row and column; the four orthogonal ones first.
pub const OFFSETS8: [[i32; 2]; 8] = [
    [-1, 0],
    [0, -1],
    [0, 1],
    [1, 0],
    [-1, -1],
    [-1, 1],
    [1, -1],
    [1, 1],
];

// A step of d along a side of `len` places.
fn along(at: usize, d: i32, len: usize) -> Option<usize>
    requires { (at < len) × (len ≤ 514) × (le_z (negsuc 1) d ≡ true) × (le_z d (pos 2) ≡ true) }
    ensures { result ≡ on_side len (pos at +ℤ d) }
{
    let to = at as i32 + d;
    if to < 0 {
        return None;
    }
    let next = to as usize;
    if next < len { Some(next) } else { None }
}

// One more than a step of -1, 0 or 1.
fn past(d: i32) -> usize
    requires { Single d }
    ensures { pos result ≡ d +ℤ pos 1 }
{
    (d + 1) as usize
}

impl Grid {
    // The step of dy rows and dx columns from row y and column x.
    pub fn neighbour(self, y: usize, x: usize, dy: i32, dx: i32) -> Option<usize>
        requires y_lt_h { (y < self.h) × (x < self.w) }
        requires dy_value { (le_z (negsuc 1) dy ≡ true) × (le_z dy (pos 2) ≡ true) × (le_z (negsuc 1) dx ≡ true) × (le_z dx (pos 2) ≡ true) }
        ensures { result ≡ step_to self.h self.w y x dy dx }
    {
        let row = along(y, dy, self.h)?;
        let col = along(x, dx, self.w)?;
        Some(row * self.w + col)
    }

    // Whether the place p lies on the border.
    #[tactic(auto, unfolding(rules::specs::Grid::on_edge))]
    pub fn on_edge(self, p: usize) -> bool
        requires { p < self.h * self.w }
        ensures { result ≡ on_edge self.h self.w p }
    {
        let y = p / self.w;
        let x = p % self.w;
        y == 0 || x == 0 || y + 1 == self.h || x + 1 == self.w
    }

    // Where a step leads: from within the border every step leads to a cell.
    pub fn reached(self, step: Move) -> Option<usize>
        requires p_bound { step.p < self.h * self.w }
        requires single { Single step.dy × Single step.dx × (step.border ≡ false → Inner self.h self.w step.p) }
        ensures { result ≡ step_to self.h self.w (step.p / self.w) (step.p % self.w) step.dy step.dx }
    {
        let p = step.p;
        if step.border {
            return self.neighbour(p / self.w, p % self.w, step.dy, step.dx);
        }
        let rows = past(step.dy);
        let cols = past(step.dx);
        let to = p + rows * self.w + cols;
        let over = self.w + 1;
        Some(to - over)
    }
}

// Whether a cell of some kind may be beside a place, which is asked before the steps from it, since those cost more.
ghost use Rattle.std.specs.Prelude.{◌≡◌, true, false, ℕ, ◌+◌, ◌≤◌, ◌<◌};
ghost use Rattle.rules.specs.Grid.{eight};

// Whether `is` tells one of the three cells from q on.
fn any_in_row<F: Fn(usize) -> bool>(q: usize, is: &F) -> bool
    requires q_bound { q ≤ 264196 }
    requires callable { (i : ℕ) → i < 3 → F.pre is.now (q + i) }
    ensures { result ≡ false → (i : ℕ) → i < 3 → F.post is.now (q + i) false }
{
    is(q) || is(q + 1) || is(q + 2)
}

// Whether a cell that `is` tells may be beside the place p of a grid of n cells: one is near, or p is too near the first or last place to look.
pub fn any_near<F: Fn(usize) -> bool>(n: usize, w: usize, p: usize, is: F) -> bool
    requires sizes { (n ≤ 264196) × (w ≤ 514) × (p < n) }
    requires callable { (q : ℕ) → q < n → F.pre is q }
    ensures { result ≡ false → (q : ℕ) → eight w p q ≡ true → F.post is q false }
{
    let reach = w + 1;
    let far = p + reach;
    if p < reach || n <= far {
        return true;
    }
    any_in_row(p - reach, &is) || any_in_row(p - 1, &is) || any_in_row(far - 2, &is)
}

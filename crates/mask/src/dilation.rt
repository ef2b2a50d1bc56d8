// Dilation of a mask by k rows and k columns: separable, by running counts along each row, then down the columns.
// The work area holds h + 1 rows of counts down the columns; the counts along one row stand behind them.
ghost use Rattle.std.specs.Prelude.{◌≡◌, ℕ, ◌+◌, ◌-◌, ◌*◌, ◌/◌, ◌%◌, ◌≤◌, ◌<◌, length, get_or};
ghost use Rattle.base.specs.Places.{table, count};
ghost use Rattle.base.specs.Outputs.{filled};
ghost use Rattle.rules.specs.Masks.{is_set, reach_of, dilated_at, dilation_answer, dilation_out};
ghost use Rattle.mask.specs.Lines.{bit_of, less, set_in, count_with_margin, next_count, grows, Counted};

use base::Refusal;
use refusals::grid_refusal;

// The byte of a place that is not set.
const UNSET: u8 = 0;

// A dilation by more iterations is refused.
const MOST_ITERATIONS: u32 = 65535;

// A nonzero byte is set.
#[tactic(auto, unfolding(rules::specs::Masks::is_set))]
pub fn is_set(v: u8) -> bool
    ensures { result ≡ is_set v }
{
    v != UNSET
}

// 1 for a byte that is set.
#[tactic(auto, unfolding(crate::specs::Lines::bit_of))]
pub fn bit(v: u8) -> u32
    ensures { result ≡ bit_of v }
{
    u32::from(is_set(v))
}

// How far a dilation reaches; 0 stands for the whole mask.
#[tactic(auto, unfolding(rules::specs::Masks::reach_of))]
fn reach(h: usize, w: usize, iterations: u32) -> usize
    ensures { result ≡ reach_of h w iterations }
{
    if iterations == 0 {
        h.max(w)
    } else {
        iterations as usize
    }
}

// How many places of a row are set before each of them; the answer counts all.
fn tally(row: &[u8], counts: &mut [u32]) -> u32
    requires { (length row.now ≤ 512) × (length counts.old ≡ length row.now) }
    ensures value { result ≡ count (length row.now) (set_in row.now) }
    ensures counts_after { counts.new ≡ table (length row.now) (λ i. count i (set_in row.now)) }
{
    let mut sum = 0;
    for (i, v) in row.iter().enumerate() {
        counts[i] = sum;
        sum += bit(*v);
    }
    sum
}

// The same with a margin of r more numbers on either side, where the count stands still.
fn tally_wide(row: &[u8], r: usize, line: &mut [u32])
    requires { (length row.now ≤ 512) × (length line.old ≡ r + (length row.now + (r + 1))) }
    ensures { line.new ≡ table (r + (length row.now + (r + 1))) (count_with_margin r (length row.now) (set_in row.now)) }
{
    let (before, rest) = line.split_at_mut(r);
    let (counts, after) = rest.split_at_mut(row.len());
    before.fill(0);
    let sum = tally(row, counts);
    after.fill(sum);
}

// The row of counts below another: 1 more where the count along the mask's row grows from lo to hi.
fn add_row(above: &[u32], lo: &[u32], hi: &[u32], next: &mut [u32])
    requires lengths { (length above.now ≡ length next.old) × (length lo.now ≡ length next.old) × (length hi.now ≡ length next.old) }
    requires small { (j : ℕ) → j < length next.old → get_or above.now j 0 ≤ 512 }
    ensures { next.new ≡ table (length next.old) (next_count above.now lo.now hi.now) }
{
    for (j, count) in next.iter_mut().enumerate() {
        *count = above[j] + u32::from(lo[j] < hi[j]);
    }
}

// For each row y and column x, how many of the rows before y have a set place within k columns of x.
fn count_rows(mask: &[u8], h: usize, w: usize, k: usize, work: &mut [u32])
    requires { (h ≤ 512) × (w ≤ 512) × (0 < h * w) × (h * w ≤ length mask.now) × (8 * (h * w) ≤ length work.old) }
    ensures { Counted mask.now w k h work.new }
{
    let (rows, rest) = work.split_at_mut((h + 1) * w);
    let r = k.min(w);
    let line = &mut rest[..2 * r + w + 1];
    rows[..w].fill(0);
    for y in 0..h {
        let at = y * w;
        tally_wide(&mask[at..at + w], r, line);
        let counts = &line[..];
        let (done, next) = rows.split_at_mut(at + w);
        add_row(
            &done[at..],
            &counts[..w],
            &counts[2 * r + 1..],
            &mut next[..w],
        );
    }
}

// A row of the answer: 1 where the counts grow from lo to hi, else 0.
fn store_row(lo: &[u32], hi: &[u32], out: &mut [u8])
    requires { (length lo.now ≡ length out.old) × (length hi.now ≡ length out.old) }
    ensures { out.new ≡ table (length out.old) (λ j. less (get_or lo.now j 0) (get_or hi.now j 0)) }
{
    for (j, grown) in out.iter_mut().enumerate() {
        *grown = u8::from(lo[j] < hi[j]);
    }
}

// The answer, by the counts at the two ends of each window of rows.
fn store(work: &[u32], h: usize, w: usize, k: usize, out: &mut [u8])
    requires { (h ≤ 512) × (k ≤ 65535) × ((h + 1) * w ≤ length work.now) × (h * w ≤ length out.old) }
    ensures { out.new ≡ filled (h * w) (λ p. grows work.now h w k (p / w) (p % w)) out.old }
{
    for y in 0..h {
        let at = y * w;
        let lo = y.saturating_sub(k) * w;
        let hi = (y + k + 1).min(h) * w;
        store_row(&work[lo..lo + w], &work[hi..hi + w], &mut out[at..at + w]);
    }
}

// A mask of at least one place: along the rows, then down the columns.
fn dilate(mask: &[u8], h: usize, w: usize, k: usize, out: &mut [u8], work: &mut [u32])
    requires h_bound { (h ≤ 512) × (w ≤ 512) × (0 < h * w) × (k ≤ 65535) }
    requires w_in_bounds { (h * w ≤ length mask.now) × (h * w ≤ length out.old) × (8 * (h * w) ≤ length work.old) }
    ensures { out.new ≡ filled (h * w) (dilated_at mask.now h w k) out.old }
{
    count_rows(mask, h, w, k, work);
    store(work, h, w, k, out);
}

// Every place within `iterations` rows and columns of a set one becomes 1, every other 0; 0 iterations stand for max(h, w).
// The work area holds 8 numbers for each place.
pub fn binary_dilation8(
    mask: &[u8],
    h: usize,
    w: usize,
    iterations: u32,
    out: &mut [u8],
    work: &mut [u32],
) -> Result<(), Refusal>
    ensures value { result ≡ dilation_answer mask.now h w iterations out.old (length work.old) }
    ensures out_after { out.new ≡ dilation_out mask.now h w iterations out.old (length work.old) }
{
    grid_refusal(h, w, mask.len(), out.len(), work.len())?;
    if MOST_ITERATIONS < iterations {
        return Err(Refusal::SettingOutOfRange);
    }
    if 0 < h * w {
        let k = reach(h, w, iterations);
        dilate(mask, h, w, k, out, work);
    }
    Ok(())
}

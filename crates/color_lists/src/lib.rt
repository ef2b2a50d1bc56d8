// The entries over lists of colours, three numbers for each colour. Each is judged first, and writes only if nothing is refused.
#![tactic(auto)]

ghost use Rattle.std.specs.Prelude.{◌≡◌, ℕ, ◌+◌, ◌*◌, ◌/◌, ◌%◌, ◌<◌, ◌≤◌, ltb, pos, length};
ghost use Rattle.base.specs.Outputs.{filled};
ghost use Rattle.base.specs.Refusals.{refusal, answered};
ghost use Rattle.color.specs.Lab.{entry, rgb8_to_lab, lab_to_rgb8};
ghost use Rattle.color_lists.specs.Entries.{Gives, colours, strays, byte_entry, best_of};
ghost use Rattle.color_lists.specs.Entries.{rgb8_to_lab_rows, rgb8_to_lab_out, lab_to_rgb8_rows, lab_to_rgb8_out, delta_e_rows, delta_e_out, matrix_rows, matrix_out, nearest_rows, nearest_out};

use base::Refusal;
use color::cielab::{dist2, distance, entry, lab_to_rgb8_one, rgb8_to_lab_one, within};
use color::least::{Least, lower};
use color::{Lab, Rgb8};

// Whether a value is NaN or beyond 1024 either way.
fn strays(list: &[f64]) -> bool
    ensures { result ≡ strays list.now }
{
    !list.iter().all(|x| within(*x))
}

// The colour i of a list with three bytes for each colour.
#[tactic(auto, unfolding(crate::specs::Entries::byte_entry))]
fn byte_entry(list: &[u8], i: usize) -> Rgb8
    requires { 3 * i + 2 < length list.now }
    ensures { result ≡ byte_entry list.now i }
{
    Rgb8 {
        r: list[3 * i],
        g: list[3 * i + 1],
        b: list[3 * i + 2],
    }
}

// Writes f(0), f(1), .., f(n - 1) at the front.
fn fill<T: Copy, F: Fn(usize) -> T>(out: &mut [T], n: usize, f: F)
    requires callable { (i : ℕ) → i < n → F.pre f i }
    requires room { n ≤ length out.old }
    ensures { (v : ℕ → T) → Gives F.Fn n v f → out.new ≡ filled n v out.old }
{
    for i in 0..n {
        out[i] = f(i);
    }
}

// Writes the three numbers of each of f(0), f(1), .., f(n - 1) at the front.
fn fill_threes<T: Copy, F: Fn(usize) -> (T, T, T)>(out: &mut [T], n: usize, f: F)
    requires callable { (i : ℕ) → i < n → F.pre f i }
    requires room { 3 * n ≤ length out.old }
    ensures { (v : ℕ → ℕ → T) → Gives F.Fn n (λ i. (v i 0, v i 1, v i 2)) f → out.new ≡ filled (3 * n) (λ k. v (k / 3) (k % 3)) out.old }
{
    for i in 0..n {
        let (x, y, z) = f(i);
        out[3 * i] = x;
        out[3 * i + 1] = y;
        out[3 * i + 2] = z;
    }
}

// Whether `rgb8_to_lab` refuses, room being the length of its output.
#[tactic(auto, unfolding(base::specs::Refusals::refusal, base::specs::Refusals::answered, base::specs::Refusals::unless, crate::specs::Entries::rgb8_to_lab_rows, crate::specs::Entries::colours, crate::specs::Entries::ragged))]
fn rgb8_to_lab_answer(rgb8: &[u8], room: usize) -> Result<(), Refusal>
    ensures { result ≡ answered (refusal (rgb8_to_lab_rows rgb8.now room)) tt }
{
    let short = room < 3 * (rgb8.len() / 3);
    let uneven = rgb8.len() % 3 != 0;
    if short {
        return Err(Refusal::ListTooShort);
    }
    if uneven {
        return Err(Refusal::WrongLength);
    }
    Ok(())
}

// Colours of sRGB as colours of CIELAB.
pub fn rgb8_to_lab(rgb8: &[u8], out: &mut [f64]) -> Result<(), Refusal>
    ensures value { result ≡ answered (refusal (rgb8_to_lab_rows rgb8.now (length out.old))) tt }
    ensures out_after { out.new ≡ rgb8_to_lab_out rgb8.now out.old }
{
    rgb8_to_lab_answer(rgb8, out.len())?;
    fill_threes(out, rgb8.len() / 3, |i| {
        let c = rgb8_to_lab_one(byte_entry(rgb8, i));
        (c.l, c.a, c.b)
    });
    Ok(())
}

// Whether `lab_to_rgb8` refuses.
#[tactic(auto, unfolding(base::specs::Refusals::refusal, base::specs::Refusals::answered, base::specs::Refusals::unless, crate::specs::Entries::lab_to_rgb8_rows, crate::specs::Entries::colours, crate::specs::Entries::ragged))]
fn lab_to_rgb8_answer(lab: &[f64], room: usize) -> Result<(), Refusal>
    ensures { result ≡ answered (refusal (lab_to_rgb8_rows lab.now room)) tt }
{
    let short = room < 3 * (lab.len() / 3);
    let uneven = lab.len() % 3 != 0;
    if short {
        return Err(Refusal::ListTooShort);
    }
    if uneven {
        return Err(Refusal::WrongLength);
    }
    if strays(lab) {
        return Err(Refusal::ColourOutOfRange);
    }
    Ok(())
}

// Colours of CIELAB as colours of sRGB.
pub fn lab_to_rgb8(lab: &[f64], out: &mut [u8]) -> Result<(), Refusal>
    ensures value { result ≡ answered (refusal (lab_to_rgb8_rows lab.now (length out.old))) tt }
    ensures out_after { out.new ≡ lab_to_rgb8_out lab.now out.old }
{
    lab_to_rgb8_answer(lab, out.len())?;
    fill_threes(out, lab.len() / 3, |i| {
        let c = lab_to_rgb8_one(entry(lab, i));
        (c.r, c.g, c.b)
    });
    Ok(())
}

// Whether `delta_e` refuses.
#[tactic(auto, unfolding(base::specs::Refusals::refusal, base::specs::Refusals::answered, base::specs::Refusals::unless, crate::specs::Entries::delta_e_rows, crate::specs::Entries::colours, crate::specs::Entries::ragged))]
fn delta_e_answer(a: &[f64], b: &[f64], room: usize) -> Result<(), Refusal>
    ensures { result ≡ answered (refusal (delta_e_rows a.now b.now room)) tt }
{
    let short = room < a.len() / 3;
    let uneven = a.len() % 3 != 0 || b.len() % 3 != 0 || a.len() != b.len();
    if short {
        return Err(Refusal::ListTooShort);
    }
    if uneven {
        return Err(Refusal::WrongLength);
    }
    let stray = strays(a) || strays(b);
    if stray {
        return Err(Refusal::ColourOutOfRange);
    }
    Ok(())
}

// The distances of the colours of two lists, pair by pair.
pub fn delta_e(a: &[f64], b: &[f64], out: &mut [f64]) -> Result<(), Refusal>
    ensures value { result ≡ answered (refusal (delta_e_rows a.now b.now (length out.old))) tt }
    ensures out_after { out.new ≡ delta_e_out a.now b.now out.old }
{
    delta_e_answer(a, b, out.len())?;
    fill(out, a.len() / 3, |i| distance(entry(a, i), entry(b, i)));
    Ok(())
}

// Whether the square of n is above room, told by a quotient, since the square may not fit.
fn squared_above(n: usize, room: usize) -> bool
    ensures { result ≡ ltb room (n * n) }
{
    n != 0 && room / n < n
}

// Whether `palette_distance_matrix` refuses.
#[tactic(auto, unfolding(base::specs::Refusals::refusal, base::specs::Refusals::answered, base::specs::Refusals::unless, crate::specs::Entries::matrix_rows, crate::specs::Entries::colours, crate::specs::Entries::ragged, crate::specs::Entries::crowded))]
fn matrix_answer(palette: &[f64], room: usize) -> Result<(), Refusal>
    ensures { result ≡ answered (refusal (matrix_rows palette.now room)) tt }
{
    let n = palette.len() / 3;
    let uneven = palette.len() % 3 != 0 || n > 256;
    if squared_above(n, room) {
        return Err(Refusal::ListTooShort);
    }
    if uneven {
        return Err(Refusal::WrongLength);
    }
    if strays(palette) {
        return Err(Refusal::ColourOutOfRange);
    }
    Ok(())
}

// The distances of all colours of a palette from each other, row after row.
pub fn palette_distance_matrix(palette: &[f64], out: &mut [f64]) -> Result<(), Refusal>
    ensures value { result ≡ answered (refusal (matrix_rows palette.now (length out.old))) tt }
    ensures out_after { out.new ≡ matrix_out palette.now out.old }
{
    matrix_answer(palette, out.len())?;
    let n = palette.len() / 3;
    fill(
        out,
        n * n,
        |i| distance(entry(palette, i / n), entry(palette, i % n)),
    );
    Ok(())
}

// The nearest entry of a palette, the lowest on ties.
fn nearest(palette: &[f64], p: Lab) -> i32
    requires { colours palette.now ≤ 256 }
    ensures { result ≡ pos (best_of palette.now p (colours palette.now)).at }
{
    let mut best = Least {
        at: 0,
        value: f64::INFINITY,
    };
    for (k, c) in palette.chunks_exact(3).enumerate() {
        let value = dist2(p, entry(c, 0));
        best = lower(Some(best), Least { at: k, value });
    }
    best.at as i32
}

// Whether `nearest_index` refuses.
#[tactic(auto, unfolding(base::specs::Refusals::refusal, base::specs::Refusals::answered, base::specs::Refusals::unless, crate::specs::Entries::nearest_rows, crate::specs::Entries::colours, crate::specs::Entries::ragged, crate::specs::Entries::crowded))]
fn nearest_answer(pixels: &[f64], palette: &[f64], room: usize) -> Result<(), Refusal>
    ensures { result ≡ answered (refusal (nearest_rows pixels.now palette.now room)) tt }
{
    let n = pixels.len() / 3;
    let uneven = pixels.len() % 3 != 0 || palette.len() % 3 != 0 || palette.len() / 3 > 256;
    if room < n {
        return Err(Refusal::ListTooShort);
    }
    if uneven {
        return Err(Refusal::WrongLength);
    }
    let stray = strays(pixels) || strays(palette);
    if stray {
        return Err(Refusal::ColourOutOfRange);
    }
    if n > 0 && palette.is_empty() {
        return Err(Refusal::NoEntries);
    }
    Ok(())
}

// The index of the nearest palette entry for each pixel, by squares, the lowest on ties.
pub fn nearest_index(pixels: &[f64], palette: &[f64], out: &mut [i32]) -> Result<(), Refusal>
    ensures value { result ≡ answered (refusal (nearest_rows pixels.now palette.now (length out.old))) tt }
    ensures out_after { out.new ≡ nearest_out pixels.now palette.now out.old }
{
    nearest_answer(pixels, palette, out.len())?;
    fill(
        out,
        pixels.len() / 3,
        |i| nearest(palette, entry(pixels, i)),
    );
    Ok(())
}

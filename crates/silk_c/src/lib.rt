// The entries for C, on numbers and slices: each answers 0 for an accepted call, or the refusal's number.
#![tactic(auto)]

ghost use Rattle.std.specs.Prelude.{◌≡◌, ℕ, [], ◌∷◌, ltb, length, Result, Err};
ghost use Rattle.base.specs.declared.Refusal.{Refusal};
ghost use Rattle.base.specs.declared.Refusal.TheVariants.{ListTooShort};
ghost use Rattle.base.specs.Refusals.{row, refusal, unless, answered};
ghost use Rattle.color_lists.specs.Entries.{rgb8_to_lab_rows, rgb8_to_lab_out, lab_to_rgb8_rows, lab_to_rgb8_out, delta_e_rows, delta_e_out, matrix_rows, matrix_out, nearest_rows, nearest_out};
ghost use Rattle.hex_colour.specs.Hex.{hex_to_rgb8};
ghost use Rattle.rules.specs.Palette.{palette_of};
ghost use Rattle.rules.specs.Masks.{is_set, regions_answer, regions_labels, mask_answer, mask_labels, dilation_answer, dilation_out};
ghost use Rattle.rules.specs.Entries.{orphans_answer, orphans_cells, jaggies_answer, jaggies_cells, outline_answer, outline_cells, outline_palette, saturation_answer, saturation_palette, run_answer, run_cells, run_palette};
ghost use Rattle.rules.specs.Calls.{limits_at, OrphansCall, JaggiesCall, OutlineCall, RunCall};
ghost use Rattle.rules.specs.Sheet.{lent_sheet};
ghost use Rattle.silk_c.specs.Arguments.{outline_of, beta_of, config_of};
ghost use Rattle.rules.specs.declared.Facts.{Facts};
ghost use Rattle.rules.specs.declared.Processed.{Processed};
ghost use Rattle.c_answers.specs.Outcomes.{status, received, after_facts_rows, one_fact, facts_list, run_facts, three_bytes};

use base::Refusal;
use c_answers::{facts_rows, number, tell_colour, tell_count, tell_outline, tell_run};
use mask::is_set;
use rules::{Outline, PostConfig};

// Colours of sRGB as colours of CIELAB.
pub fn silk_rgb8_to_lab(rgb: &[u8], out: &mut [f64]) -> u32
    ensures value { result ≡ status (answered (refusal (rgb8_to_lab_rows rgb.now (length out.old))) (tt {0})) }
    ensures out_after { out.new ≡ rgb8_to_lab_out rgb.now out.old }
{
    number(color_lists::rgb8_to_lab(rgb, out))
}

// Colours of CIELAB as colours of sRGB.
pub fn silk_lab_to_rgb8(lab: &[f64], out: &mut [u8]) -> u32
    ensures value { result ≡ status (answered (refusal (lab_to_rgb8_rows lab.now (length out.old))) (tt {0})) }
    ensures out_after { out.new ≡ lab_to_rgb8_out lab.now out.old }
{
    number(color_lists::lab_to_rgb8(lab, out))
}

// The distances of the colours of two lists, pair by pair.
pub fn silk_delta_e(a: &[f64], b: &[f64], out: &mut [f64]) -> u32
    ensures value { result ≡ status (answered (refusal (delta_e_rows a.now b.now (length out.old))) (tt {0})) }
    ensures out_after { out.new ≡ delta_e_out a.now b.now out.old }
{
    number(color_lists::delta_e(a, b, out))
}

// The index of the nearest palette entry for each pixel.
pub fn silk_nearest_index(pixels: &[f64], palette: &[f64], out: &mut [i32]) -> u32
    ensures value { result ≡ status (answered (refusal (nearest_rows pixels.now palette.now (length out.old))) (tt {0})) }
    ensures out_after { out.new ≡ nearest_out pixels.now palette.now out.old }
{
    number(color_lists::nearest_index(pixels, palette, out))
}

// The distances of all colours of a palette from each other, row after row.
pub fn silk_palette_distance_matrix(palette: &[f64], out: &mut [f64]) -> u32
    ensures value { result ≡ status (answered (refusal (matrix_rows palette.now (length out.old))) (tt {0})) }
    ensures out_after { out.new ≡ matrix_out palette.now out.old }
{
    number(color_lists::palette_distance_matrix(palette, out))
}

// The colour that a text names, as three bytes.
#[tactic(auto, unfolding(base::specs::Refusals::refusal, base::specs::Refusals::unless))]
pub fn silk_hex_to_rgb8(text: &[u8], out: &mut [u8]) -> u32
    ensures value { result ≡ status (unless (refusal (row ListTooShort (ltb (length out.old) 3) ∷ [])) Err (hex_to_rgb8 text.now)) }
    ensures out_after { out.new ≡ received three_bytes (unless (refusal (row ListTooShort (ltb (length out.old) 3) ∷ [])) Err (hex_to_rgb8 text.now)) out.old }
{
    if out.len() < 3 {
        return u32::from(Refusal::ListTooShort.number());
    }
    tell_colour(hex_colour::hex_to_rgb8(text), out)
}

// The labels of a sheet's regions; one fact: their number.
#[tactic(auto, using(crate::proofs::FactsRows::facts_rows_cases, crate::proofs::FactsRows::facts_room))]
pub fn silk_label_regions(
    cells: &[i32],
    h: usize,
    w: usize,
    labels: &mut [u32],
    work: &mut [u32],
    facts: &mut [u32],
) -> u32
    ensures { (let answer : Result ℕ Refusal = after_facts_rows h w (length facts.old) 1 Err (regions_answer cells.now h w labels.old (length work.old)) in
        (result ≡ status answer)
        × (labels.new ≡ after_facts_rows h w (length facts.old) 1 (λ n. labels.old) (regions_labels cells.now h w labels.old (length work.old)))
        × (facts.new ≡ received one_fact answer facts.old)) }
{
    if let Err(e) = facts_rows(h, w, facts.len(), 1) {
        return u32::from(e.number());
    }
    let answer = labels::label_regions(cells, h, w, labels, work);
    tell_count(answer, facts)
}

// The labels of a mask's regions; one fact: their number.
#[tactic(auto, using(crate::proofs::FactsRows::facts_rows_cases, crate::proofs::FactsRows::facts_room))]
pub fn silk_label4(
    mask: &[u8],
    h: usize,
    w: usize,
    labels: &mut [u32],
    work: &mut [u32],
    facts: &mut [u32],
) -> u32
    ensures { (let answer : Result ℕ Refusal = after_facts_rows h w (length facts.old) 1 Err (mask_answer mask.now h w labels.old (length work.old)) in
        (result ≡ status answer)
        × (labels.new ≡ after_facts_rows h w (length facts.old) 1 (λ n. labels.old) (mask_labels mask.now h w labels.old (length work.old)))
        × (facts.new ≡ received one_fact answer facts.old)) }
{
    if let Err(e) = facts_rows(h, w, facts.len(), 1) {
        return u32::from(e.number());
    }
    let answer = mask::label4(mask, h, w, labels, work);
    tell_count(answer, facts)
}

// A mask dilated by k rows and columns.
pub fn silk_binary_dilation8(
    mask: &[u8],
    h: usize,
    w: usize,
    k: u32,
    out: &mut [u8],
    work: &mut [u32],
) -> u32
    ensures value { result ≡ status (dilation_answer mask.now h w k out.old (length work.old)) }
    ensures out_after { out.new ≡ dilation_out mask.now h w k out.old (length work.old) }
{
    number(mask::binary_dilation8(mask, h, w, k, out, work))
}

// Cleaning over the lent cells; one fact: the count of repainting passes.
#[tactic(auto, using(crate::proofs::FactsRows::facts_rows_cases, crate::proofs::FactsRows::facts_room))]
pub fn silk_remove_orphans(
    cells: &mut [i32],
    h: usize,
    w: usize,
    palette: &[f64],
    k: usize,
    orphan_min_region: i32,
    max_passes: u32,
    orphan_max_delta: f64,
    work: &mut [u32],
    facts: &mut [u32],
) -> u32
    ensures { (let call : OrphansCall = record {
      lent = lent_sheet cells.old h w (length work.old);
      palette = palette_of palette.now k;
      limits = limits_at orphan_min_region orphan_max_delta;
      passes = max_passes;
    } in
        let answer : Result ℕ Refusal = after_facts_rows h w (length facts.old) 1 Err (orphans_answer call) in
        (result ≡ status answer)
        × (cells.new ≡ after_facts_rows h w (length facts.old) 1 (λ n. cells.old) (orphans_cells call))
        × (facts.new ≡ received one_fact answer facts.old)) }
{
    if let Err(e) = facts_rows(h, w, facts.len(), 1) {
        return u32::from(e.number());
    }
    let answer = orphans::remove_orphans(
        cells,
        h,
        w,
        palette,
        k,
        orphan_min_region,
        max_passes,
        orphan_max_delta,
        work,
    );
    tell_count(answer, facts)
}

// Corners trimmed over the lent cells.
pub fn silk_fix_jaggies(cells: &mut [i32], h: usize, w: usize, work: &mut [u32]) -> u32
    ensures { (let call : JaggiesCall = record { lent = lent_sheet cells.old h w (length work.old) } in
        (result ≡ status (jaggies_answer call)) × (cells.new ≡ jaggies_cells call)) }
{
    number(jaggies::fix_jaggies(cells, h, w, work))
}

// The outline of a kind: 1 is auto with its darkening, 2 the triple, any other none.
fn outline_of(kind: u32, darken: f64, r: u8, g: u8, b: u8) -> Outline
    ensures { result ≡ outline_of kind darken r g b }
{
    match kind {
        1 => Outline::Auto(darken),
        2 => Outline::Rgb(r, g, b),
        _ => Outline::None,
    }
}

// An outline drawn over the lent cells and palette; five facts: height, width, colours, index (one more, 0 for none), clipped.
#[tactic(auto, using(crate::proofs::FactsRows::facts_rows_cases, crate::proofs::FactsRows::facts_room))]
pub fn silk_add_outline(
    cells: &mut [i32],
    h: usize,
    w: usize,
    palette: &mut [f64],
    k: usize,
    kind: u32,
    darken: f64,
    r: u8,
    g: u8,
    b: u8,
    allow_pad: u8,
    fixed_palette: u8,
    work: &mut [u32],
    facts: &mut [u32],
) -> u32
    ensures { (let call : OutlineCall = record {
      lent = lent_sheet cells.old h w (length work.old);
      palette = palette_of palette.old k;
      how = record { outline = outline_of kind darken r g b; allow_pad = is_set allow_pad; fixed_palette = is_set fixed_palette };
    } in
        let answer : Result Facts Refusal = after_facts_rows h w (length facts.old) 5 Err (outline_answer call) in
        (result ≡ status answer)
        × (cells.new ≡ after_facts_rows h w (length facts.old) 5 (λ n. cells.old) (outline_cells call))
        × (palette.new ≡ after_facts_rows h w (length facts.old) 5 (λ n. palette.old) (outline_palette call))
        × (facts.new ≡ received facts_list answer facts.old)) }
{
    if let Err(e) = facts_rows(h, w, facts.len(), 5) {
        return u32::from(e.number());
    }
    let outline = outline_of(kind, darken, r, g, b);
    let pad = is_set(allow_pad);
    let fixed = is_set(fixed_palette);
    let answer = outline::add_outline(cells, h, w, palette, k, outline, pad, fixed, work);
    tell_outline(answer, facts)
}

// A palette's a and b multiplied by beta.
pub fn silk_apply_saturation(palette: &mut [f64], k: usize, beta: f64) -> u32
    ensures value { result ≡ status (saturation_answer (palette_of palette.old k) beta) }
    ensures palette_after { palette.new ≡ saturation_palette (palette_of palette.old k) beta }
{
    number(saturation::apply_saturation(palette, k, beta))
}

// The last kind of outline.
const LAST_KIND: u32 = 2;

// Beta, or NaN where the kind of outline is out of range.
fn beta_of(kind: u32, beta: f64) -> f64
    ensures { result ≡ beta_of kind beta }
{
    if LAST_KIND < kind { f64::NAN } else { beta }
}

// The settings of `run`.
fn config_of(
    beta: f64,
    remove_orphans: u8,
    orphan_min_region: i32,
    orphan_max_delta: f64,
    fix_jaggies: u8,
    outline: Outline,
    tileset: u8,
) -> PostConfig
    ensures { result ≡ config_of beta remove_orphans orphan_min_region orphan_max_delta fix_jaggies outline tileset }
{
    PostConfig {
        saturation_beta: beta,
        remove_orphans: is_set(remove_orphans),
        orphan_min_region,
        orphan_max_delta,
        fix_jaggies: is_set(fix_jaggies),
        outline,
        tileset: is_set(tileset),
    }
}

// All steps over the lent cells and palette; seven facts: those of an outline, and the passes of both cleanings.
#[tactic(auto, using(crate::proofs::FactsRows::facts_rows_cases, crate::proofs::FactsRows::facts_room))]
pub fn silk_run(
    cells: &mut [i32],
    h: usize,
    w: usize,
    palette: &mut [f64],
    k: usize,
    beta: f64,
    orphans: u8,
    region: i32,
    delta: f64,
    jaggies: u8,
    kind: u32,
    darken: f64,
    r: u8,
    g: u8,
    b: u8,
    tileset: u8,
    saturated: u8,
    fixed_palette: u8,
    margin: i32,
    work: &mut [u32],
    facts: &mut [u32],
) -> u32
    ensures { (let call : RunCall = record {
      lent = lent_sheet cells.old h w (length work.old);
      palette = palette_of palette.old k;
      config = config_of (beta_of kind beta) orphans region delta jaggies (outline_of kind darken r g b) tileset;
      saturated = is_set saturated;
      fixed = is_set fixed_palette;
      margin = margin;
    } in
        let answer : Result Processed Refusal = after_facts_rows h w (length facts.old) 7 Err (run_answer call) in
        (result ≡ status answer)
        × (cells.new ≡ after_facts_rows h w (length facts.old) 7 (λ n. cells.old) (run_cells call))
        × (palette.new ≡ after_facts_rows h w (length facts.old) 7 (λ n. palette.old) (run_palette call))
        × (facts.new ≡ received run_facts answer facts.old)) }
{
    if let Err(e) = facts_rows(h, w, facts.len(), 7) {
        return u32::from(e.number());
    }
    let tone = beta_of(kind, beta);
    let line = outline_of(kind, darken, r, g, b);
    let config = config_of(tone, orphans, region, delta, jaggies, line, tileset);
    let toned = is_set(saturated);
    let fixed = is_set(fixed_palette);
    let answer = postprocess::run(cells, h, w, palette, k, config, toned, fixed, margin, work);
    tell_run(answer, facts)
}

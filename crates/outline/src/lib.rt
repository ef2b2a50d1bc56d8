// The outline of a sheet: padding where it applies, the ring, and the palette entry that it is drawn with.
#![tactic(auto)]

pub mod canvas;
pub mod ring;
pub mod rows;

ghost use Rattle.std.specs.Prelude.{◌≡◌, true, ◌*◌, ◌≤◌, length};
ghost use Rattle.rules.specs.Sheet.{lent_sheet, sheet_of, needed};
ghost use Rattle.rules.specs.Palette.{palette_of};
ghost use Rattle.rules.specs.Outline.{pads, drawn, outline};
ghost use Rattle.rules.specs.Calls.{OutlineCall};
ghost use Rattle.rules.specs.Entries.{outline_answer, outline_cells, outline_palette};
ghost use Rattle.refusals.specs.Room.{SheetFits};
ghost use Rattle.outline.specs.Room.{Present};
ghost use Rattle.outline.specs.Drawing.{Drew};

use crate::canvas::Lent;
use base::Refusal;
use refusals::{palette_refusal, sheet_refusal};
use rules::{Drawing, Facts, Outline, Size};

// Draws the ring, where there is one, and answers the facts.
fn draw(
    cells: &mut [i32],
    size: Size,
    palette: &mut [f64],
    k: usize,
    how: Drawing,
    clipped: bool,
    work: &mut [u32],
) -> Facts
    requires present { Present cells.old size.h size.w }
    requires palette_len { (length palette.old ≡ 768) × (k ≤ 256) × (size.h * size.w ≤ length work.old) }
    ensures { Drew (drawn (λ i. true) how (palette_of palette.old k) clipped (sheet_of cells.old size.h size.w)) cells.old result cells.new palette.new }
{
    let Size { h, w } = size;
    let on = Lent { cells, h, w };
    if !on.has_ring() {
        return Facts::without_outline(size, k, clipped);
    }
    let outline = how.outline;
    let c = outline_entry::outline_color_lab(palette, k, outline);
    let chosen = outline_entry::choose(palette, k, c, how.fixed_palette);
    let index = chosen.index;
    on.mark_ring(work);
    ring::ink(&mut cells[..h * w], work, index);
    Facts {
        height: h,
        width: w,
        colours: chosen.colours,
        outline_index: Some(index as u32),
        outline_clipped: clipped,
    }
}

// Outlines a sheet whose arguments were checked, padded first if padding applies.
pub fn outline_sheet(
    cells: &mut [i32],
    size: Size,
    palette: &mut [f64],
    k: usize,
    how: Drawing,
    work: &mut [u32],
) -> Facts
    requires room { SheetFits size.h size.w (needed size.h size.w (pads how (sheet_of cells.old size.h size.w))) (length cells.old) (length work.old) }
    requires palette_len { (length palette.old ≡ 768) × (k ≤ 256) }
    ensures { Drew (outline (λ i. true) how (palette_of palette.old k) (sheet_of cells.old size.h size.w)) cells.old result cells.new palette.new }
{
    let Size { h, w } = size;
    let on = Lent { cells, h, w };
    let touched = on.touches_edge();
    let clipped = touched & !how.allow_pad;
    if !rows::pads(how, touched) {
        return draw(cells, size, palette, k, how, clipped, work);
    }
    canvas::pad(cells, h, w);
    let padded = Size { h: h + 2, w: w + 2 };
    draw(cells, padded, palette, k, how, clipped, work)
}

// Outlines a sheet in its lent list, and gives the outline its palette entry.
pub fn add_outline(
    cells: &mut [i32],
    h: usize,
    w: usize,
    palette: &mut [f64],
    k: usize,
    outline: Outline,
    allow_pad: bool,
    fixed_palette: bool,
    work: &mut [u32],
) -> Result<Facts, Refusal>
    ensures { (let call : OutlineCall = record {
      lent = lent_sheet cells.old h w (length work.old);
      palette = palette_of palette.old k;
      how = record { outline = outline; allow_pad = allow_pad; fixed_palette = fixed_palette };
    } in (result ≡ outline_answer call) × (cells.new ≡ outline_cells call) × (palette.new ≡ outline_palette call)) }
{
    let how = Drawing {
        outline,
        allow_pad,
        fixed_palette,
    };
    let padding = rows::padding(cells, h, w, how);
    sheet_refusal(h, w, padding, cells.len(), work.len())?;
    palette_refusal(palette, k, rows::bad_outline(outline))?;
    let on = Lent { cells, h, w };
    if on.no_entry(k, how, padding) {
        return Err(Refusal::NoEntries);
    }
    Ok(outline_sheet(cells, Size { h, w }, palette, k, how, work))
}

// The conditions of the refusals of an outline, and whether padding applies.
ghost use Rattle.std.specs.Prelude.{◌≡◌, true, ◌&&◌, ◌||◌, [], length};
ghost use Rattle.rules.specs.Sheet.{sheet_of};
ghost use Rattle.rules.specs.Palette.{palette_of};
ghost use Rattle.rules.specs.Outline.{asked, touches, pads, canvas};
ghost use Rattle.rules.specs.Rows.{is_auto, no_entry};
ghost use Rattle.rules.specs.Entries.{bad_outline};
ghost use Rattle.outline.specs.Room.{Present, present};

use crate::canvas::Lent;
use refusals::{bad_darkening, too_large};
use rules::{Drawing, Outline};

// Whether an outline is asked for.
#[tactic(auto, unfolding(rules::specs::Outline::asked))]
pub fn asked(outline: Outline) -> bool
    ensures { result ≡ asked outline }
{
    match outline {
        Outline::None => false,
        Outline::Auto(_) | Outline::Rgb(..) => true,
    }
}

// Whether padding applies, by whether an edge is touched.
pub fn pads(how: Drawing, touched: bool) -> bool
    ensures { result ≡ (how.allow_pad && asked how.outline && touched) }
{
    how.allow_pad && asked(how.outline) && touched
}

// Whether a sheet has sides in range and stands in a list of `len` cells.
#[tactic(auto, unfolding(crate::specs::Room::present, rules::specs::Rows::too_large))]
fn present(h: usize, w: usize, len: usize) -> bool
    ensures { result ≡ present h w len }
{
    !too_large(h, w) && h * w <= len
}

// Whether padding applies. A sheet that is not there is not read, and not padded: rows 1 and 2 refuse it either way.
pub fn padding(cells: &[i32], h: usize, w: usize, how: Drawing) -> bool
    ensures { result ≡ (present h w (length cells.now) && pads how (sheet_of cells.now h w)) }
{
    if !present(h, w, cells.len()) {
        return false;
    }
    let on = Lent { cells, h, w };
    pads(how, on.touches_edge())
}

// Row 6: no outline is asked for, or its darkening is out of range.
#[tactic(auto, unfolding(rules::specs::Entries::bad_outline))]
pub fn bad_outline(outline: Outline) -> bool
    ensures { result ≡ bad_outline outline }
{
    !asked(outline) || bad_darkening(outline)
}

// Whether the outline's colour needs an entry to be there.
#[tactic(auto, unfolding(rules::specs::Outline::asked, rules::specs::Rows::is_auto))]
fn needs_entry(how: Drawing) -> bool
    ensures { result ≡ (asked how.outline && (is_auto how.outline || how.fixed_palette)) }
{
    match how.outline {
        Outline::None => false,
        Outline::Auto(_) => true,
        Outline::Rgb(..) => how.fixed_palette,
    }
}

impl Lent<'_> {
    ghost use Rattle.rules.specs.Outline.{touches, canvas};
    ghost use Rattle.outline.specs.Standing.{sheet_on};

    // Row 8. A sheet that is to be padded has a ring, since an edge is touched.
    pub fn no_entry(self, k: usize, how: Drawing, padding: bool) -> bool
        requires { padding ≡ true → touches (sheet_on self) ≡ true }
        ensures { result ≡ (no_entry how (palette_of [] k) (canvas padding (sheet_on self.entry))).applies }
    {
        if k != 0 {
            return false;
        }
        if !needs_entry(how) {
            return false;
        }
        padding || self.has_ring()
    }
}

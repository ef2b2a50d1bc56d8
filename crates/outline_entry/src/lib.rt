// The outline's colour, and the palette entry that carries it.
#![tactic(auto)]

ghost use Rattle.std.specs.Prelude.{◌≡◌, true, ◌+◌, ◌*◌, ◌<◌, ◌≤◌, length};
ghost use Rattle.color.specs.Lab.{lab_to_rgb8};
ghost use Rattle.rules.specs.Palette.{palette_of, colour, first_where};
ghost use Rattle.rules.specs.InUse.{in_use};
ghost use Rattle.rules.specs.Outline.{darkest, darkened, line_colour, nearest_entry, same_rgb8, choice};
ghost use Rattle.outline_entry.specs.Line.{placed, Chose};

use color::cielab::{distance, entry, lab_to_rgb8_one, rgb8_to_lab_one};
use color::least::{Least, lower};
use color::{Lab, Rgb8};
use rules::{Entries, Outline, recolour};

// Where the least value stands, 0 where there is none.
#[tactic(auto, unfolding(crate::specs::Line::placed))]
fn place(best: Option<Least>) -> usize
    ensures { result ≡ placed best }
{
    match best {
        Some(least) => least.at,
        None => 0,
    }
}

// The first entry of least L.
fn darkest(entries: Entries) -> usize
    ensures { result ≡ darkest (in_use entries.entry) }
{
    place((0..entries.k).fold(None, |best, i| {
        let value = entries.colour(i).l;
        Some(lower(best, Least { at: i, value }))
    }))
}

// The nearest entry to a colour, the lowest on ties. The distances are compared, not their squares.
fn nearest_entry(entries: Entries, c: Lab) -> usize
    ensures { result ≡ nearest_entry (λ i. true) (in_use entries.entry) c }
{
    place((0..entries.k).fold(None, |best, i| {
        let d = distance(entries.colour(i), c);
        Some(lower(best, Least { at: i, value: d }))
    }))
}

// A colour with each part times 1 - darken: on the way to black.
fn darkened(darken: f64, c: Lab) -> Lab
    ensures { result ≡ darkened darken c }
{
    let f = 1.0 - darken;
    Lab {
        l: c.l * f,
        a: c.a * f,
        b: c.b * f,
    }
}

// The outline's colour.
pub fn outline_color_lab(palette: &[f64], k: usize, outline: Outline) -> Lab
    requires { (length palette.now ≡ 768) × (k ≤ 256) }
    ensures { result ≡ line_colour (palette_of palette.now k) outline }
{
    match outline {
        Outline::None => entry(palette, 0),
        Outline::Auto(darken) => {
            let i = darkest(Entries { lab: palette, k });
            darkened(darken, entry(palette, i))
        }
        Outline::Rgb(r, g, b) => rgb8_to_lab_one(Rgb8 { r, g, b }),
    }
}

// The first entry with an RGB8.
fn first_same(entries: Entries, rgb: Rgb8) -> Option<usize>
    ensures { result ≡ first_where (λ i. same_rgb8 (lab_to_rgb8 (colour (in_use entries.entry) i)) rgb) entries.entry.k }
{
    (0..entries.k).find(|i| lab_to_rgb8_one(entries.colour(*i)) == rgb)
}

// The entry that carries the outline's colour, and how many entries there are with it.
#[derive(Clone, Copy, Debug, PartialEq, Eq)]
pub struct Chosen {
    pub index: usize,
    pub colours: usize,
}

// The entries that a palette has place for.
const ENTRIES: usize = 256;

// Finds the entry for a colour: in a fixed palette the nearest; else the first of the same RGB8, else a new one, else the nearest, written over.
pub fn choose(palette: &mut [f64], k: usize, c: Lab, fixed: bool) -> Chosen
    requires { (length palette.old ≡ 768) × (k ≤ 256) }
    ensures { Chose (palette_of palette.old k) c (choice (λ i. true) fixed (palette_of palette.old k) c) result.index result.colours palette.new }
{
    if fixed {
        let index = nearest_entry(Entries { lab: palette, k }, c);
        return Chosen { index, colours: k };
    }
    if let Some(index) = first_same(Entries { lab: palette, k }, lab_to_rgb8_one(c)) {
        return Chosen { index, colours: k };
    }
    if k < ENTRIES {
        recolour(palette, k, c);
        return Chosen {
            index: k,
            colours: k + 1,
        };
    }
    let index = nearest_entry(Entries { lab: palette, k }, c);
    recolour(palette, index, c);
    Chosen { index, colours: k }
}

// The head of the text: the sizes and settings, line by line.
ghost use Rattle.std.specs.Prelude.{◌≡◌, List, ℕ, OnErr};
ghost use Rattle.silk_reader.specs.Lines.{hundredths, outline_value, outline_line, outline_with, sizes, passes, last_settings, head_of, checked_head, head};
ghost use Rattle.silk_reader.specs.Answers.{answer};

use super::Cursor;
use base::Refusal;
use color::Rgb8;
use rules::{Outline, PostConfig};

// The outline that is asked for, before its darkening is read.
#[derive(Clone, Copy, Debug, PartialEq, Eq)]
pub enum OutlineKind {
    Nothing,
    Auto,
    Explicit(Rgb8),
}

#[derive(Clone, Copy, Debug, PartialEq, Eq)]
pub struct Sizes {
    pub height: usize,
    pub width: usize,
    pub colours: usize,
}

// The settings of saturation, cleaning and corners.
#[derive(Clone, Copy, Debug, PartialEq)]
pub struct Passes {
    pub beta: f64,
    pub orphans: bool,
    pub min: i32,
    pub delta: f64,
    pub jaggies: bool,
}

// The settings after the outline.
#[derive(Clone, Copy, Debug, PartialEq, Eq)]
pub struct LastSettings {
    pub darken: u32,
    pub tileset: bool,
    pub margin: i32,
    pub saturated: bool,
    pub fixed: bool,
}

// What the head says.
#[derive(Clone, Copy)]
pub struct Head {
    pub height: usize,
    pub width: usize,
    pub colours: usize,
    pub config: PostConfig,
    pub margin: i32,
    pub saturated: bool,
    pub fixed: bool,
}

fn hundredths(n: u32) -> f64
    ensures { result ≡ hundredths n }
{
    n as f64 / 100.0
}

fn outline_with(kind: OutlineKind, darken: u32) -> Outline
    ensures { result ≡ outline_with kind darken }
{
    match kind {
        OutlineKind::Nothing => Outline::None,
        OutlineKind::Auto => Outline::Auto(hundredths(darken)),
        OutlineKind::Explicit(c) => Outline::Rgb(c.r, c.g, c.b),
    }
}

fn head_of(s: Sizes, p: Passes, kind: OutlineKind, last: LastSettings) -> Head
    ensures { result ≡ head_of s p kind last }
{
    let outline = outline_with(kind, last.darken);
    let config = PostConfig {
        saturation_beta: p.beta,
        remove_orphans: p.orphans,
        orphan_min_region: p.min,
        orphan_max_delta: p.delta,
        fix_jaggies: p.jaggies,
        outline,
        tileset: last.tileset,
    };
    Head {
        height: s.height,
        width: s.width,
        colours: s.colours,
        config,
        margin: last.margin,
        saturated: last.saturated,
        fixed: last.fixed,
    }
}

// The most colours that a text may bring.
const MOST_COLOURS: usize = 256;

// The head, unless it asks for more than 40 rows or columns, or more than 256 colours.
#[tactic(auto, unfolding(crate::specs::Lines::checked_head, base::specs::Refusals::refusal, base::specs::Refusals::unless))]
fn checked_head(h: Head) -> Result<Head, Refusal>
    ensures { (text : List ℕ) → answer result text ≡ checked_head h text }
{
    if h.height > 40 || h.width > 40 {
        return Err(Refusal::SideTooLong);
    }
    if h.colours > MOST_COLOURS {
        return Err(Refusal::WrongLength);
    }
    Ok(h)
}

impl<'a> Cursor<'a> {
    // The rest of the line as an outline: none, auto or a hex colour.
    #[tactic(auto, unfolding(crate::specs::Lines::outline_value, crate::specs::Reader::codes))]
    fn outline_value(&mut self) -> Result<OutlineKind, Refusal>
        ensures { answer result self.new.rest.now ≡ outline_value self.old.rest.now }
    {
        if self.bytes(b"none\n").is_ok() {
            return Ok(OutlineKind::Nothing);
        }
        if self.bytes(b"auto\n").is_ok() {
            return Ok(OutlineKind::Auto);
        }
        let colour = self.hex_line()?;
        Ok(OutlineKind::Explicit(colour))
    }

    #[tactic(auto, unfolding(crate::specs::Reader::codes))]
    fn outline_line(&mut self) -> Result<OutlineKind, Refusal>
        ensures { answer result self.new.rest.now ≡ outline_line self.old.rest.now }
    {
        self.bytes(b"outline=")?;
        self.outline_value()
    }

    // The lines height, width and colours.
    #[tactic(auto, unfolding(crate::specs::Lines::sizes, crate::specs::Reader::codes))]
    fn sizes(&mut self) -> Result<Sizes, Refusal>
        ensures { answer result self.new.rest.now ≡ sizes self.old.rest.now }
    {
        let height = self.number_line(b"height=")?;
        let width = self.number_line(b"width=")?;
        let colours = self.number_line(b"colours=")?;
        Ok(Sizes {
            height: height as usize,
            width: width as usize,
            colours: colours as usize,
        })
    }

    // The lines beta, orphans, min, delta and jaggies.
    #[tactic(auto, using(crate::proofs::Scanning::whole_double), unfolding(crate::specs::Lines::passes, crate::specs::Reader::codes))]
    fn passes(&mut self) -> Result<Passes, Refusal>
        ensures { answer result self.new.rest.now ≡ passes self.old.rest.now }
    {
        let beta = self.number_line(b"beta=")?;
        let orphans = self.switch_line(b"orphans=")?;
        let min = self.number_line(b"min=")?;
        let delta = self.number_line(b"delta=")?;
        let jaggies = self.switch_line(b"jaggies=")?;
        Ok(Passes {
            beta: hundredths(beta),
            orphans,
            min: min as i32,
            delta: delta as f64,
            jaggies,
        })
    }

    // The lines darken, tileset, margin, saturated and fixed.
    #[tactic(auto, unfolding(crate::specs::Lines::last_settings, crate::specs::Reader::codes))]
    fn last_settings(&mut self) -> Result<LastSettings, Refusal>
        ensures { answer result self.new.rest.now ≡ last_settings self.old.rest.now }
    {
        let darken = self.number_line(b"darken=")?;
        let tileset = self.switch_line(b"tileset=")?;
        let margin = self.number_line(b"margin=")?;
        let saturated = self.switch_line(b"saturated=")?;
        let fixed = self.switch_line(b"fixed=")?;
        Ok(LastSettings {
            darken,
            tileset,
            margin: margin as i32,
            saturated,
            fixed,
        })
    }

    // The whole head; its sizes are judged once its last line is read.
    #[tactic(auto, unfolding(crate::specs::Lines::head))]
    pub fn head(&mut self) -> Result<Head, Refusal>
        ensures value { answer result self.new.rest.now ≡ head self.old.rest.now }
        ensures err { OnErr result (self.new.rest.now ≡ self.old.rest.now) }
    {
        let mut next = *self;
        let s = next.sizes()?;
        let p = next.passes()?;
        let kind = next.outline_line()?;
        let last = next.last_settings()?;
        let head = checked_head(head_of(s, p, kind, last))?;
        *self = next;
        Ok(head)
    }
}

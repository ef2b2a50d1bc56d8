// The items of the lists that follow the head: a colour's line, and a cell of a row.
ghost use Rattle.std.specs.Prelude.{◌≡◌, OnErr};
ghost use Rattle.silk_reader.specs.Reader.{cell_at};
ghost use Rattle.silk_reader.specs.Lines.{colour_line};
ghost use Rattle.silk_reader.specs.Answers.{answer};

use super::Cursor;
use base::Refusal;
use color::Rgb8;

impl<'a> Cursor<'a> {
    #[tactic(auto, unfolding(crate::specs::Reader::codes))]
    pub fn colour_line(&mut self) -> Result<Rgb8, Refusal>
        ensures value { answer result self.new.rest.now ≡ colour_line self.old.rest.now }
        ensures err { OnErr result (self.new.rest.now ≡ self.old.rest.now) }
    {
        let mut next = *self;
        next.bytes(b"colour=")?;
        let colour = next.hex_line()?;
        *self = next;
        Ok(colour)
    }

    // The cell of column x, after a comma unless it is the first.
    #[tactic(auto, unfolding(crate::specs::Reader::cell_at, crate::specs::Reader::codes))]
    pub fn cell_at(&mut self, x: usize) -> Result<i32, Refusal>
        ensures value { answer result self.new.rest.now ≡ cell_at x self.old.rest.now }
        ensures err { OnErr result (self.new.rest.now ≡ self.old.rest.now) }
    {
        let mut next = *self;
        if x > 0 {
            next.bytes(b",")?;
        }
        let cell = next.cell()?;
        *self = next;
        Ok(cell)
    }
}

// The cases of a stream, and whether a call gave what is stored of it, list by list.
ghost use Rattle.std.specs.Prelude.{◌≡◌, ◌-◌, ◌&&◌, ◌==◌, length};
ghost use Rattle.std.specs.Iterator.{at_most};
ghost use Rattle.replay.specs.Kinds.{same_at};
ghost use Rattle.replay.specs.Comparisons.{answered_at, further, NextCase, NextCaseAt};

use crate::kinds::Kind;
use crate::lists::{After, Stored};
use crate::numbers::Numbers;

// The cases of a stream, which begin with how many numbers they have. Each is a stream of its own: past its end a number is 0.
#[derive(Clone, Copy, Debug)]
pub struct Cases<'a>(pub &'a [u64]);

impl<'a> Iterator for Cases<'a> {
    type Item = Numbers<'a>;

    ghost next_gives = { λ s r t. NextCase s.0.now r t.0.now };

    ghost remaining = { λ s. at_most (length s.0.now) };

    fn next(&mut self) -> Option<Numbers<'a>> {
        let (count, rest) = self.0.split_first()?;
        let (case, later) = rest.split_at(usize::min(*count as usize, rest.len()));
        self.0 = later;
        Some(Numbers::new(case))
    }
}

// The cases from a place on, as the stored answers are replayed. Each is a part of the whole stream: past its end a number is what follows there.
#[derive(Clone, Copy, Debug)]
pub struct CasesAt<'a>(pub Numbers<'a>);

impl<'a> Iterator for CasesAt<'a> {
    type Item = Numbers<'a>;

    ghost next_gives = { λ s r t. NextCaseAt s.0 r t.0 };

    ghost remaining = { λ s. at_most (s.0.end - s.0.at) };

    fn next(&mut self) -> Option<Numbers<'a>> {
        self.0.case()
    }
}

// The place up to which a case was read, and whether all was the same so far.
#[derive(Clone, Copy, Debug)]
pub struct Comparison<'a> {
    pub rest: Numbers<'a>,
    pub same: bool,
}

impl<'a> Comparison<'a> {
    // Whether a call's answer is the number at a place: 0, or that of a refusal.
    pub fn answered(mut numbers: Numbers<'a>, answer: u32) -> Self
        ensures { result ≡ answered_at numbers.entry answer }
    {
        let same = numbers.number() == u64::from(answer);
        Self {
            rest: numbers,
            same,
        }
    }

    // The list that was stored as `before`, after the call.
    pub fn list<K: Kind>(self, before: Stored<'a>, list: &[K]) -> Self
        ensures { result ≡ further self.entry before.entry (length list.now) (same_at K.read K.bits list.now) }
    {
        let mut rest = self.rest;
        let given = rest.given();
        let same = self.same && After { before, given }.agrees(list);
        Self { rest, same }
    }

    // Whether all was the same, and the case has just those numbers that its entry takes.
    pub fn holds(self) -> bool
        ensures { result ≡ (self.entry.same && self.entry.rest.at == self.entry.rest.end) }
    {
        self.same && self.rest.at_end()
    }
}

#[cfg(test)]
mod tests {
    use super::*;

    fn first_three(case: Numbers<'_>) -> [u64; 3] {
        [case.get(), case.past(1).get(), case.past(2).get()]
    }

    // A case of two numbers, and one that is cut off by the end of the stream: past the end of a case each number is 0.
    #[test]
    fn gives_each_case_as_a_stream(rt: HostRuntime) {
        let mut cases = Cases(&[2, 7, 8, 3, 9]);
        assert_eq!(rt; cases.next().map(first_three), Some([7, 8, 0]));
        assert_eq!(rt; cases.next().map(first_three), Some([9, 0, 0]));
        assert!(rt; cases.next().is_none());
    }
}

// A place in a stream of numbers.
ghost use Rattle.std.specs.Prelude.{◌≡◌, length, ◌==◌};
ghost use Rattle.replay.specs.Lists.{number_at, past, given_at, past_given, stored_at, work_at};
ghost use Rattle.replay.specs.Comparisons.{NextCaseAt};

use crate::kinds::Kind;
use crate::lists::{Given, Stored};

// The place of the next number, which moves on as numbers are read, and the place where those of a case end. Past the end of the stream each is 0.
#[derive(Clone, Copy, Debug)]
pub struct Numbers<'a> {
    stream: &'a [u64],
    at: usize,
    end: usize,
}

impl<'a> Numbers<'a> {
    // The place of the first number of a whole stream.
    pub fn new(stream: &'a [u64]) -> Self
        ensures stream { result.stream.now ≡ stream.now }
        ensures at { result.at ≡ 0 }
        ensures end { result.end ≡ length stream.now }
    {
        Self {
            stream,
            at: 0,
            end: stream.len(),
        }
    }

    // Whether the place is the end.
    pub fn at_end(self) -> bool
        ensures { result ≡ (self.entry.at == self.entry.end) }
    {
        self.at == self.end
    }

    // The place count past this one.
    pub fn past(self, count: usize) -> Self
        ensures { result ≡ past self.entry count }
    {
        Self {
            stream: self.stream,
            at: self.at.wrapping_add(count),
            end: self.end,
        }
    }

    // The number here.
    pub fn get(self) -> u64
        ensures { result ≡ number_at self.entry }
    {
        self.stream.get(self.at).copied().unwrap_or(0)
    }

    // Reads a number.
    pub fn number(&mut self) -> u64
        ensures value { result ≡ number_at self.old }
        ensures after { self.new ≡ past self.old 1 }
    {
        let n = self.get();
        *self = self.past(1);
        n
    }

    // Reads a case, which begins with how many numbers it has: the place of its first number, up to its end. No case begins at the end.
    pub fn case(&mut self) -> Option<Self>
        ensures { NextCaseAt self.old result self.new }
    {
        if self.at >= self.end {
            return None;
        }
        let len = self.size();
        let case_end = self.at + usize::min(len, self.end - self.at);
        let case = Self {
            stream: self.stream,
            at: self.at,
            end: case_end,
        };
        self.at = case_end;
        Some(case)
    }

    // Reads a length, an index or a count.
    pub fn size(&mut self) -> usize
        ensures value { result ≡ number_at self.old }
        ensures after { self.new ≡ past self.old 1 }
    {
        self.number() as usize
    }

    // Reads an element.
    pub fn element<K: Kind>(&mut self) -> K
        ensures value { result ≡ K.read (number_at self.old) }
        ensures after { self.new ≡ past self.old 1 }
    {
        K::from_number(self.number())
    }

    // Reads how many elements are given, and these.
    pub fn given(&mut self) -> Given<'a>
        ensures value { result ≡ given_at self.old }
        ensures after { self.new ≡ past_given result }
    {
        let count = self.size();
        let from = *self;
        *self = from.past(count);
        Given { count, from }
    }

    // Reads a list.
    pub fn list(&mut self) -> Stored<'a>
        ensures value { result ≡ stored_at self.old }
        ensures after { self.new ≡ past_given result.given }
    {
        let len = self.size();
        let given = self.given();
        Stored { len, given }
    }

    // Reads a work area, whose length alone is stored.
    pub fn work(&mut self) -> Stored<'a>
        ensures value { result ≡ work_at self.old }
        ensures after { self.new ≡ past self.old 1 }
    {
        let len = self.size();
        let given = Given {
            count: 0,
            from: *self,
        };
        Stored { len, given }
    }
}

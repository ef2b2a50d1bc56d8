// Lists as the numbers give them, and whether they hold what is stored of them after a call.
ghost use Rattle.std.specs.Prelude.{◌≡◌, length};
ghost use Rattle.replay.specs.Kinds.{same_at};
ghost use Rattle.replay.specs.Lists.{past_given, given_element, element, element_after, stored_list, agrees};

use crate::kinds::Kind;
use crate::numbers::Numbers;

// Every element past those that are given has all its bytes 5a.
const SPARE: u64 = 0x5a5a_5a5a_5a5a_5a5a;

// The first elements of a list: how many are given, and the place of the first.
#[derive(Clone, Copy, Debug)]
pub struct Given<'a> {
    pub count: usize,
    pub from: Numbers<'a>,
}

impl<'a> Given<'a> {
    // The element i, if so many are given.
    pub fn element(self, i: usize) -> Option<u64>
        ensures { result ≡ given_element self.entry i }
    {
        if i < self.count {
            Some(self.from.past(i).get())
        } else {
            None
        }
    }
}

// A list: its length, and the elements that are given.
#[derive(Clone, Copy, Debug)]
pub struct Stored<'a> {
    pub len: usize,
    pub given: Given<'a>,
}

impl<'a> Stored<'a> {
    // The element i: one that is given, or 5a in every byte.
    pub fn element(self, i: usize) -> u64
        ensures { result ≡ element self.entry i }
    {
        self.given.element(i).unwrap_or(SPARE)
    }

    // The list, in the first part of a buffer, or in all of one that is too short.
    pub fn lend<'b, K: Kind>(self, buffer: &'b mut [K]) -> &'b mut [K]
        ensures { result.now ≡ stored_list K.read self.entry (length buffer.old) }
    {
        let n = usize::min(self.len, buffer.len());
        let list = &mut buffer[..n];
        for (i, x) in list.iter_mut().enumerate() {
            *x = K::from_number(self.element(i));
        }
        list
    }
}

// A list after a call: the elements that are given, and the list that it was before, whose elements all others are.
#[derive(Clone, Copy, Debug)]
pub struct After<'a> {
    pub before: Stored<'a>,
    pub given: Given<'a>,
}

impl<'a> After<'a> {
    // The element i: one that is given, or the one before.
    pub fn element(self, i: usize) -> u64
        ensures { result ≡ element_after self.entry i }
    {
        match self.given.element(i) {
            Some(n) => n,
            None => self.before.element(i),
        }
    }

    // Whether a list is this one.
    pub fn agrees<K: Kind>(self, list: &[K]) -> bool
        ensures { result ≡ agrees self.entry (length list.now) (same_at K.read K.bits list.now) }
    {
        let mut same = list.len() == self.before.len;
        for (i, x) in list.iter().enumerate() {
            same &= x.to_number() == K::from_number(self.element(i)).to_number();
        }
        same
    }
}

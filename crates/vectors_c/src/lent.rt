// A list that a case lends.
use replay::{Comparison, Kind, Numbers, Stored};
use std::alloc::{AllocError, Global};

// Room for the longest lists that are stored, but for the distances of 257 colours from each other. A longer list shows as a difference.
pub const LIST: usize = 1024;

pub const MATRIX: usize = 66560;

// What is stored of a list, and its elements.
#[derive(Drop)]
pub struct Lent<'a, K> {
    stored: Stored<'a>,
    pub elements: Vec<K>,
}

impl<'a, K: Kind> Lent<'a, K> {
    fn of(alloc: Global, stored: Stored<'a>, room: usize) -> Result<Self, AllocError> {
        let mut elements = vec![in alloc; K::from_number(0); usize::min(stored.len, room)]?;
        stored.lend(&mut elements);
        Ok(Self { stored, elements })
    }

    // Reads a list.
    pub fn list(alloc: Global, case: &mut Numbers<'a>) -> Result<Self, AllocError> {
        Self::list_within(alloc, case, LIST)
    }

    // Reads a list that has so much room.
    pub fn list_within(
        alloc: Global,
        case: &mut Numbers<'a>,
        room: usize,
    ) -> Result<Self, AllocError> {
        Self::of(alloc, case.list(), room)
    }

    // Reads a work area.
    pub fn work(alloc: Global, case: &mut Numbers<'a>) -> Result<Self, AllocError> {
        Self::of(alloc, case.work(), LIST)
    }

    // Compares the list with what is stored of it after the call.
    pub fn compared(&self, found: Comparison<'a>) -> Comparison<'a> {
        found.list(self.stored, &self.elements)
    }
}

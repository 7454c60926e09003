//! The lists that a search of free positions writes.

use crate::ground::ForbiddenColumns;
use crate::near::Neighbours;
use arrayvec::ArrayVec;

/// What stands near a slot, and the forbidden columns of a row: made once, and lent to one search after another.
#[derive(Drop)]
pub(crate) struct Scratch {
    pub near: Neighbours,
    pub forbidden: ForbiddenColumns,
}

impl Scratch {
    /// Empty lists.
    pub(crate) fn new() -> Scratch {
        Scratch {
            near: ArrayVec::new(),
            forbidden: ArrayVec::new(),
        }
    }
}

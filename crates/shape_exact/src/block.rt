//! Blocks.

use crate::{Name, Shape};

/// A block to be built: its footprint, the quarter turns in which it may stand (`turns[q]` is of q quarter turns
/// counterclockwise), the open days that its work takes, the first day on which it may start, the last day on which it
/// may end without tardiness, the weight of each day of tardiness, and the cost of each day that it ends before it is due.
#[derive(Clone, Default, Drop)]
pub struct Block {
    pub name: Name,
    pub shape: Shape,
    pub turns: [bool; 4],
    pub duration: u16,
    pub release: u16,
    pub due: u16,
    pub weight: u16,
    pub early: u16,
}

//! Placements.

/// A placement of a block: its first and its last day, the plate's number, the quarter turns counterclockwise, and the
/// position of the turned footprint's lower left corner, in units of length.
#[derive(Clone, Copy, PartialEq, Eq, Debug)]
pub struct Placement {
    pub start: u16,
    pub end: u16,
    pub plate: u8,
    pub turn: u8,
    pub y: u16,
    pub x: u16,
}

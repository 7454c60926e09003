//! Whole-number points.

/// A point of the plane with whole coordinates, in units of length.
#[derive(Clone, Copy, Default, PartialEq, Eq, Debug)]
pub struct Point {
    pub x: i32,
    pub y: i32,
}

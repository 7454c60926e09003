//! Plates.

use crate::{DayList, Name};

/// An assembly plate: a rectangle of `width` by `height` units of length, on which shapes stand at multiples of
/// `pitch` in both directions, closed on some days.
#[derive(Clone, Default, Drop)]
pub struct Plate {
    pub name: Name,
    pub width: u16,
    pub height: u16,
    pub pitch: u16,
    pub closed: DayList,
}

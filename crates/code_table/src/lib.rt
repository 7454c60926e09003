//! Placements and their codes.
//!
//! The placements of a block, in the order of start, plate, turn, y and x, are numbered from 0: a code is a number in
//! that order. The list is never made: a code is computed from a placement and a placement from a code.
#![tactic(auto)]

mod code;
mod codes;
mod cost;
mod count;
mod grid;
mod least;
mod placement;
mod search;
mod sizes;
mod spot;
mod stand;
mod stretch;
mod table;

pub use codes::Codes;
pub use cost::cost_on;
pub use count::placement_count;
pub use placement::Placement;
pub use sizes::{MOST_PLACEMENTS, can_be_planned};
pub use stretch::Stretch;

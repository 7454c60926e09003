//! Footprints and the plain yard.
//!
//! A footprint is a convex shape with whole-number vertices, counterclockwise, its least x and least y 0. A unit of
//! length is one cell of the plate. A yard is its days, its plates, its blocks and the pieces that already
//! stand on the plates, each within the limits of `docs/RULES.md`. No call of this crate takes memory.
#![tactic(auto)]

mod block;
mod cells;
mod corner;
mod day_list;
mod faults;
mod fixed;
mod laws;
mod memory;
mod name;
mod plate;
mod point;
mod read;
mod separation;
mod shape;
mod turn;
mod yard;

pub use block::Block;
pub use day_list::DayList;
pub use fixed::Fixed;
pub use laws::{
    apart_either_way, apart_shares_no_cell, four_turns_return, shift_keeps_cells,
    shift_keeps_inside, turn_keeps_cells,
};
pub use memory::NoMemory;
pub use name::Name;
pub use plate::Plate;
pub use point::Point;
pub use separation::{apart, separates};
pub use shape::{Shape, ShapeFault};
pub use yard::Yard;

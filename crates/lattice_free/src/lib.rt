//! The free positions of a plate for a shape among fixed ones.
//!
//! Positions stand on the lattice of the plate's pitch: column k is x = k * pitch, row k is y = k * pitch. A run is a
//! row's columns from one to another, all free. The runs of a row are what the forbidden columns of its obstacles
//! leave: no position is tested by itself.
#![tactic(auto)]

mod columns;
mod forbidden;
mod free_points;
mod free_rows;
mod run;

pub use columns::{columns_between, steps};
pub use forbidden::{Forbidden, forbidden_of};
pub use free_points::FreePoints;
pub use free_rows::FreeRows;

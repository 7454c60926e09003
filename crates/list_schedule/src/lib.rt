//! Plans by list schedules: the blocks of a region are taken in an order, and each gets its first free code of least cost
//! (the serial schedule generation scheme of project scheduling, Kolisch 1996). A few orders by a rule are tried, and then
//! small moves of the best order. What comes out is asked again: it is a feasible plan of the region, or none.
#![tactic(auto)]

mod draws;
mod guard;
mod orders;
mod schedule;
mod starting;

pub use starting::{start_plan, yard_plan};

//! The kernel of the search of one job: the steps that write a log, each of which promises what it has shown.
//!
//! A box is shown where a record of the log has a result that contains it. Codes of a block are covered one by one, and
//! one record closes their range. A plan that is found is taken. A search is any code that calls these steps: what it
//! branches on, and in which order, changes no promise (`docs/SEARCH.md`).
#![tactic(auto)]

mod bars;
mod bounds;
mod boxes;
mod covering;
mod known;
mod marks;
mod plans;
mod records;
mod steps;

pub use bars::{Bars, OneBar};
pub use bounds::beats;
pub use boxes::{clashing, copy, count_of, keep, node_part, plan_of, range_on, with, without};
pub use covering::{Coverage, Covered, cover, cover_by_box, cover_by_plan, cover_by_record};
pub use known::choices_are_known;
pub use marks::Blocks;
pub use plans::take_plan;
pub use records::{add_result, keep_box, names, write_branch, write_energy, write_fit};
pub use steps::{Shown, bounded, close, fit_of};

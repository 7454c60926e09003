//! The search of one job: the best plan of a region of plans, and the records that refute the rest of it.
//!
//! A region whose prefix meets a stored box, has a clash, meets a piece, is beaten by a bound or leaves one plan makes one
//! record. Else the range of its next block is searched. The plans of all jobs that tile the path numbers, and the records
//! of their searches, make the answer of a yard and its log (`docs/SEARCH.md`).
#![tactic(auto)]

mod front;
mod hits;
mod laws;
mod planning;
mod proper;
mod region;
mod report;
mod single;
mod solving;

pub use laws::records_are_steps;
pub use planning::{Planned, plan_with_log};
pub use proper::records_are_proper;
pub use report::Report;
pub use solving::{solve, solve_with};

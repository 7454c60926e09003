//! The open days of a plate.
//!
//! Days are numbered from 0. Work goes on on open days alone: a block that starts on an open day and takes `duration`
//! open days ends on the last of them. No call of this crate takes memory.
#![tactic(auto)]

mod calendar;
mod day_fault;

pub use calendar::Calendar;
pub use day_fault::DayFault;

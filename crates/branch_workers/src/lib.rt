//! The crew: workers that solve the jobs of a yard side by side, and what they report, put together.
//!
//! Workers share a board (the best key and slots for capsules) and deques of jobs. Each has a store and a log of its own.
//! No call waits for another worker, and no order of their steps changes the answer (`docs/SHARING.md`).
#![tactic(auto)]

mod best;
mod crewed;
mod deal;
mod gather;
mod logs;
mod making;
mod opening;
mod regions;
mod reporting;
mod running;
mod seat_bar;
mod sharing;
mod stealing;
mod worker;
mod working;

pub use crewed::{Crewed, crew};
pub use worker::{Capsules, Reports, Worker};
pub use working::work;

//! Deques of jobs: 64 cells, which one owner fills and empties, and others empty by their reaches.
//!
//! A cell is 0 where it is empty, and else the word of a job plus 1. Each push fills the next cell, and no cell is
//! filled twice. A deque has 16 parts, which its reaches hold; with all of them `done` ends it.
#![tactic(auto)]

mod deques;
mod laws;
mod owner;
mod reach;
mod rule;
mod sweep;

pub use deques::{Tally, deque, done};
pub use laws::{idle_owners_leave_none, jobs_are_taken_once};
pub use owner::Owner;
pub use reach::{Reach, Stolen};

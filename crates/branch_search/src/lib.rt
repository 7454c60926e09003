//! The search of one box of plans, which writes a log of what it refutes.
//!
//! A box is refuted by its bounds, or its codes of one block are settled one after another and one record closes their
//! range. Along the best plan the walk settles the plan's own codes one by one, and the codes above and below each as one
//! range. Every step is one of `branch_kernel`, so what the search chooses (`Hints`) changes no promise
//! (`docs/SEARCH.md`).
#![tactic(auto)]

mod choose;
mod covering;
mod cycle;
mod fits;
mod floor;
mod hints;
mod levels;
mod open;
mod order;
mod own;
mod pairs;
mod search;
mod view;

pub use hints::Hints;
pub use search::search_range;

//! The plain search: plans in the order of their codes, depth first, and the best one kept.
#![tactic(auto)]

mod best;
mod hand;
mod search;
mod tails;
#[cfg(test)]
mod tests;

pub use best::best_plan;

//! Parts of texts: decimal numbers of one spelling, and pieces that end at a byte.
//!
//! The readers of plans and logs stand on these. Each byte is looked at once, and nothing is copied.
#![tactic(auto)]

mod cuts;
mod numbers;

pub use cuts::cut;
pub use numbers::number_of;

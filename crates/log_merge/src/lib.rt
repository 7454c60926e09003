//! The merge of the records of jobs into the log of all, and the record that closes it.
//!
//! A *leaf* is a job whose region a record refutes. Leaves whose intervals follow one another from 0 to 2^32 make up the
//! root, half by half: for each halved job, after the records of its halves, one Branch over the range of its region
//! cites both.
#![tactic(auto)]

mod closing;
mod leaves;
mod merging;

pub use closing::{close_empty, close_log, merge_all};
pub use leaves::merge_leaves;
pub use merging::{Leaf, Merged, merge};

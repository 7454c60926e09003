//! Chains of entries, linked by index.
//!
//! An entry is a number from 0 on, and stands in one chain at a time. An entry that is added or moved stands first in its
//! chain. A move is open until it is undone, and the last open move is undone first: each list is then what it was before.
//! All links stand in one table, the heads of the chains first and the entries after them, and no call but `new` and
//! `reserve` takes memory.
#![tactic(auto)]

mod chains;
mod nodes;

pub use chains::Chains;

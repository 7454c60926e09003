//! The board that workers share: the best key, and 16 slots in which capsules wait for other workers.
//!
//! The *best key* is the least key of the feasible plans that were offered, or the greatest u64 where none was. A *slot*
//! holds a capsule or nothing, and a worker comes to it in its *turn*: one worker at a time. A worker steps with a *seat*
//! of its own, and what its seat has seen, offered and found is what it knows. No call waits: a turn that is found taken
//! is answered at once. What holds between any two steps is the rule of the board (`specs/Rule.antt`).
#![tactic(auto)]

mod best_key;
mod board;
mod plays;
mod rule;
mod slots;
#[cfg(test)]
mod tests;

pub use board::{Board, Closed, Seat};
pub use slots::{Fetched, Posted};

//! The checker of logs: whether a log shows that a plan is the best, or that no plan is feasible.
//!
//! It shares no code with a search. It walks the codes of each record and computes every bound for itself.
//!
//! `checking` gives the verdict (`verdict`) and makes the `judge` that every record is asked with, `steps` the first
//! record that is no step, by its form (`form`), its citations and what it should show. A branch is asked code by code
//! (`branch`, `uncovered`): the spans of codes that citations, the base and ties cover (`cited`, `cut`, `ties`, `span`),
//! and walks over the others (`walk`) beside what stands near (`exact`, `near`). The bounds are `base`, `rest`, `fit`
//! with `free`, and `energy` with `window`; `refute` says when one refutes.
//!
//! From record to record two things are kept: which codes of a stretch clash with an exact block, whatever their days (`mask`,
//! of which a walk is given a `part`; whether turned footprints are apart says `offset`), and of each block how many of its
//! first codes are hindered beside exact blocks that a side has again (`passed`).
#![tactic(auto)]

mod base;
mod block;
mod branch;
mod checking;
mod cited;
mod claim;
mod cut;
mod energy;
mod exact;
mod fit;
mod form;
mod free;
mod judge;
mod mask;
mod near;
mod offset;
mod part;
mod passed;
mod refute;
mod rest;
mod span;
mod steps;
#[cfg(test)]
mod tests;
mod ties;
mod uncovered;
mod verdict;
mod walk;
mod window;

pub use checking::check;
pub use verdict::{Refused, Verdict};

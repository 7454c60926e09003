//! Lists that definitions share: lists made piece by piece, sums over the first numbers, the first of several values; and what is
//! proved of lists in more than one crate.
//!
//! There is no code here: `specs/` has the definitions, `proofs/` the laws.
#![tactic(auto)]

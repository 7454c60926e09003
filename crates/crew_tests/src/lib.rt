//! Tests of crews, of their workers and of deques.
//!
//! No program uses this crate.
#![tactic(auto)]

#[cfg(test)]
mod crews;
#[cfg(test)]
mod deques;

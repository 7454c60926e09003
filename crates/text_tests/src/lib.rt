//! Tests of the texts of plans and logs.
//!
//! No program uses this crate.
#![tactic(auto)]

#[cfg(test)]
mod logs;
#[cfg(test)]
mod plans;

//! Tests of the search: jobs, whole yards, what it writes and unites, and regions.
//!
//! No program uses this crate.
#![tactic(auto)]

#[cfg(test)]
mod jobs;
#[cfg(test)]
mod regions;
#[cfg(test)]
mod solved;
#[cfg(test)]
mod united;
#[cfg(test)]
mod written;

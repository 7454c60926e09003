//! Tests of bounds, of stored boxes and of their chains.
//!
//! No program uses this crate.
#![tactic(auto)]

#[cfg(test)]
mod boxes;
#[cfg(test)]
mod chains;
#[cfg(test)]
mod plain;
#[cfg(test)]
mod rows;
#[cfg(test)]
mod stored;
#[cfg(test)]
mod walks;
#[cfg(test)]
mod yards;

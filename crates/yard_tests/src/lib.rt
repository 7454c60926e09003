//! Tests of the crates that read and list a yard: shapes, codes, yard files, desks, the generator, free positions.
//!
//! No program uses this crate.
#![tactic(auto)]

#[cfg(test)]
mod apart;
#[cfg(test)]
mod codes;
#[cfg(test)]
mod desks;
#[cfg(test)]
mod files;
#[cfg(test)]
mod free_rows;
#[cfg(test)]
mod made;
#[cfg(test)]
mod shapes;

//! Small yards for tests, as texts of yard files, and one way from such a text to the codes of its yard.
//!
//! The yards are in units of the plate's cells and in days. No program uses this crate.
#![tactic(auto)]

mod codes;
#[cfg(test)]
mod tests;
mod texts;

pub use codes::{codes_in, codes_of};
pub use texts::{ONE_BLOCK, ONE_CODE, TWO_SQUARES, TWO_TRIANGLES};

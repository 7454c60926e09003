//! Reads yard files.
//!
//! A yard file is a TOML document of at most 1,048,576 bytes: its version, its days, its plates, its blocks and the
//! pieces that already stand on plates. Days are numbered from 0, lengths are in units of the plate's cells. What the bytes
//! are read as is `yard_of` of `specs/Reads.antt`.
#![tactic(auto)]

mod arrays;
mod blocks;
mod clashes;
mod closed;
mod distinct;
mod document;
mod fault;
mod footprints;
mod keys;
mod names;
mod pieces;
mod place;
mod plates;
mod reader;
mod sizes;
mod turns;
mod value;

pub use clashes::pieces_clash;
pub use fault::{Word, YardFault};
pub use place::{At, Key};
pub use reader::{MOST_BYTES, read_yard};

//! Stored refutations: boxes of plans in which no plan is to be looked for, each with a tag.
//!
//! Codes of the first blocks are entered one by one and left again; the entered codes are the prefix. A box is hit by the
//! prefix and a code of the next block where each of its literals is on one of these blocks and holds that block's code.
//! So a hit says that the box contains the box of those exact codes.
//!
//! A box waits for the block of its first literal that the prefix does not match. The store keeps a chain of boxes for
//! each of the 32 blocks and one for the boxes that wait for none, and moves boxes on as codes are entered: no list of all
//! boxes is walked to find a hit.
#![tactic(auto)]

mod containers;
mod hits;
mod moves;
mod nogood;
mod nogoods;
mod step;
mod trail;
mod waits;

pub use nogood::Nogood;
pub use nogoods::Nogoods;

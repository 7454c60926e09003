//! Forbidden offsets of one footprint against another.
//!
//! An obstacle is the sum of a fixed footprint and a mirrored moving one (the configuration space of Lozano-Pérez,
//! 1983): the offsets of the moving footprint strictly inside it are exactly those at which the two have a point in
//! common that is strictly inside both. The sum of two convex shapes is convex; its sides are the edges of both, merged
//! by direction, one side for each direction. No call of this crate takes memory.
#![tactic(auto)]

mod direction;
mod edge;
mod furthest;
mod interval;
mod obstacle;
mod side;
mod sides;

pub use obstacle::Obstacle;

#[cfg(test)]
mod tests;

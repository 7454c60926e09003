//! One box moves on.

/// An entry and the chain to which it moves.
#[derive(Clone, Copy, Drop)]
pub struct Step {
    pub entry: u32,
    pub chain: u32,
}

//! Sets of blocks.
ghost use Rattle.std.specs.Prelude.{◌≡◌, ◌<◌, ℕ, true, false};
ghost use Rattle.branch_kernel.specs.Marks.{MarksAll, has};

use plan_rule::PlanBox;
use std::marker::Model;

/// A set of blocks. Contracts see it as one mark for each of 32 blocks.
#[derive(Clone, Copy, Drop)]
pub struct Blocks {
    marks: [bool; 32],
}

impl Model for Blocks {
    ghost use Rattle.std.specs.Prelude.{◌≡◌, List, Bool, length};

    ghost Value = { List Bool };

    ghost view = { λ s. s.marks };

    ghost invariant = { λ s. length s.marks ≡ 32 };

    ghost inverse = { λ marks. record { marks = marks } };
}

impl Blocks {
    /// The set without a block.
    pub fn none() -> Blocks
        ensures { (b : ℕ) → has result b ≡ false }
    {
        Blocks { marks: [false; 32] }
    }

    /// Whether the block is in the set; false past the 32nd.
    pub fn has(&self, block: u8) -> bool
        ensures { result ≡ has self.now block }
    {
        usize::from(block) < 32 && self.marks[usize::from(block)]
    }

    /// One mark for each of 32 blocks: whether it is in the set.
    pub fn marks(&self) -> &[bool; 32]
        ensures { result.now ≡ self.now }
    {
        &self.marks
    }

    /// Adds the block, where it is one of the first 32.
    pub fn add(&mut self, block: u8)
        ensures keeps { (x : ℕ) → has self.old x ≡ true → has self.new x ≡ true }
        ensures added { block < 32 → has self.new block ≡ true }
    {
        if block < 32 {
            self.marks[usize::from(block)] = true;
        }
    }

    /// Adds the blocks of the box.
    pub fn add_all(&mut self, part: &PlanBox)
        ensures keeps { (x : ℕ) → has self.old x ≡ true → has self.new x ≡ true }
        ensures added { MarksAll (has self.new) part.now }
    {
        for l in part.literals() {
            self.add(l.block);
        }
    }
}

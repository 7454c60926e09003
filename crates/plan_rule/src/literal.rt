//! Literals: ranges of one block's codes.
ghost use Rattle.std.specs.Prelude.{◌≡◌, ◌+◌, ◌^◌, ◌<◌, ◌≤◌, ◌↔◌, IsTrue};
ghost use Rattle.plan_rule.specs.Boxes.{IsWhole, exact};
ghost use Rattle.plan_rule.specs.Yards.{choices};

use crate::counts::count_of;
use code_table::Codes;

/// The codes of `block` from `lo` up to, and without, `hi`.
#[derive(Clone, Copy, PartialEq, Eq, Debug)]
pub struct Literal {
    pub block: u8,
    pub lo: u32,
    pub hi: u32,
}

impl Literal {
    /// The literal of one code.
    pub fn exact(block: u8, code: u32) -> Literal
        requires { code + 1 < 2 ^ 32 }
        ensures { result ≡ exact block code }
    {
        Literal {
            block,
            lo: code,
            hi: code + 1,
        }
    }

    /// Whether the code is in the range.
    pub fn has(self, code: u32) -> bool
        ensures { IsTrue result ↔ ((self.lo ≤ code) × (code < self.hi)) }
    {
        self.lo <= code && code < self.hi
    }

    /// Whether the range has each code of its block; a block past the last has none.
    pub fn is_whole(self, codes: &Codes) -> bool
        ensures { IsTrue result ↔ IsWhole (choices codes.now) self }
    {
        self.lo == 0 && self.hi == count_of(codes, usize::from(self.block))
    }

    /// Whether the literal has this block and this code alone.
    pub fn is_exact(self, block: u8, code: u32) -> bool
        ensures { IsTrue result ↔ (self ≡ exact block code) }
    {
        self.block == block && self.lo == code && self.lo < self.hi && self.hi - self.lo == 1
    }

    /// Whether the other literal is on the same block, and its range lies within this one's.
    pub fn takes(self, other: Literal) -> bool
        ensures { IsTrue result ↔ ((other.block ≡ self.block) × (self.lo ≤ other.lo) × (other.hi ≤ self.hi)) }
    {
        other.block == self.block && self.lo <= other.lo && other.hi <= self.hi
    }
}

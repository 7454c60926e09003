//! Parts of a stretch: some of its codes, and which of them clash with the exact blocks of a side.
ghost use Rattle.std.specs.Prelude.{◌≡◌, ◌+◌, ◌-◌, ◌<◌, ◌≤◌, ◌↔◌, IsTrue};
ghost use Rattle.std.specs.Int.{bit_at};

/// The codes of a stretch from `lo` up to, and without, `hi`, at most 64 of them, and which of them clash: of the code
/// `lo + k` the bit k says it.
#[derive(Clone, Copy)]
pub(crate) struct Part {
    pub lo: u32,
    pub hi: u32,
    pub bits: u64,
}

impl Part {
    /// Whether the code's bit is set.
    pub(crate) fn has(self, code: u32) -> bool
        requires from { self.lo ≤ code }
        requires to { code < self.lo + 64 }
        ensures { IsTrue result ↔ (bit_at self.bits (code - self.lo) ≡ 1) }
    {
        (self.bits >> (code - self.lo)) & 1 == 1
    }
}

//! Masks: which codes of a stretch clash with an exact block, by their places alone. What was found once is kept, and
//! serves the stretches of other days.
ghost use Rattle.std.specs.Prelude.{◌≡◌, ◌+◌, ◌-◌, ◌<◌, ◌≤◌, All, IfOk, length};
ghost use Rattle.shape_exact.specs.Yards.{PlainYard};
ghost use Rattle.code_table.specs.Placements.{placements};
ghost use Rattle.code_table.specs.Stretches.{IsStretch};
ghost use Rattle.log_checker.specs.ExactBlocks.{IsStanding};
ghost use Rattle.log_checker.specs.Masks.{AreTold, IsPart, IsTold, TellApart, beside_of};

use crate::exact::Exact;
use crate::offset::{are_apart, offset_of};
use crate::part::Part;
use code_table::{Codes, Stretch};
use plan_rule::may_clash;
use shape_exact::NoMemory;
use std::alloc::Global;

/// Codes of a stretch beside an exact block, without their plate and their days: the two blocks and their turns, where the
/// exact one stands, how the stretch's positions lie, how many of these are skipped, and how many are asked.
#[derive(Clone, Copy, PartialEq, Eq)]
pub(crate) struct Beside {
    pub first: u8,
    pub first_turn: u8,
    pub y: u16,
    pub x: u16,
    pub second: u8,
    pub second_turn: u8,
    pub columns: u32,
    pub pitch: u32,
    pub skipped: u32,
    pub count: u32,
}

/// Which of these codes have footprints that are not apart: of the k-th the bit k says it.
#[derive(Clone, Copy)]
pub(crate) struct Mask {
    pub of: Beside,
    pub bits: u64,
}

/// What was found of masks. Each has one slot, which the next mask of that slot takes from it.
#[derive(Drop)]
pub(crate) struct Masks {
    found: Vec<Option<Mask>>,
}

/// How many slots there are: a yard's log asks for some thousands of masks.
const SLOTS: u32 = 16384;

/// The codes from `lo` up to, and without, `hi`, beside an exact block.
fn beside_of(one: Exact, block: u8, stretch: Stretch, lo: u32, hi: u32) -> Beside
    requires from { stretch.lo ≤ lo }
    requires to { lo ≤ hi }
    ensures { result ≡ beside_of one block stretch lo hi }
{
    Beside {
        first: one.block,
        first_turn: one.place.turn,
        y: one.place.y,
        x: one.place.x,
        second: block,
        second_turn: stretch.place.turn,
        columns: stretch.columns,
        pitch: stretch.pitch,
        skipped: lo - stretch.lo,
        count: hi - lo,
    }
}

impl Beside {
    /// The number of its slot: the upper bits of a product, so that near places lie far from one another.
    fn slot(self) -> usize {
        let first = u32::from(self.first) * 4 + u32::from(self.first_turn);
        let second = u32::from(self.second) * 4 + u32::from(self.second_turn);
        let pair = first.wrapping_mul(128).wrapping_add(second);
        let place = u32::from(self.y) * 512 + u32::from(self.x);
        let rows = self
            .columns
            .wrapping_add(self.skipped)
            .wrapping_mul(262_221);
        let mixed = pair
            .wrapping_mul(2_246_822_507)
            .wrapping_add(place.wrapping_add(rows).wrapping_mul(2_654_435_761));
        (mixed >> 18) as usize
    }
}

/// Which of the codes from `lo` on, up to and without `hi`, have footprints that are not apart from the exact block's.
fn bits_of(codes: &Codes, one: Exact, block: u8, stretch: Stretch, lo: u32, hi: u32) -> u64
    requires one { IsStanding codes.now one }
    requires block { block < length codes.now.blocks }
    requires stretch { IsStretch (placements codes.now block) stretch }
    requires from { stretch.lo ≤ lo }
    requires to { hi ≤ stretch.hi }
    requires few { hi ≤ lo + 64 }
    ensures { TellApart codes.now one block stretch lo (hi - lo) result }
{
    let mut bits: u64 = 0;
    for code in lo..hi {
        let place = codes.place_in(block, stretch, code);
        if !are_apart(codes, offset_of(one, block, place)) {
            bits |= 1 << (code - lo);
        }
    }
    bits
}

/// The mask of the codes from `lo` up to, and without, `hi`, beside an exact block.
fn mask_of(codes: &Codes, one: Exact, block: u8, stretch: Stretch, lo: u32, hi: u32) -> Mask
    requires one { IsStanding codes.now one }
    requires block { block < length codes.now.blocks }
    requires stretch { IsStretch (placements codes.now block) stretch }
    requires from { stretch.lo ≤ lo }
    requires some { lo ≤ hi }
    requires to { hi ≤ stretch.hi }
    requires few { hi ≤ lo + 64 }
    ensures of { result.of ≡ beside_of one block stretch lo hi }
    ensures told { IsTold codes.now result }
{
    let of = beside_of(one, block, stretch, lo, hi);
    let bits = bits_of(codes, one, block, stretch, lo, hi);
    Mask { of, bits }
}

impl Masks {
    /// Nothing was found yet.
    pub(crate) fn new(alloc: Global) -> Result<Masks, NoMemory>
        ensures { IfOk result (λ m. (yard : PlainYard) → AreTold yard m) }
    {
        let mut found = Vec::new(alloc);
        for _ in 0..SLOTS {
            found.push(None)?;
        }
        Ok(Masks { found })
    }

    /// The bits of the codes from `lo` up to, and without, `hi`, beside an exact block. Only what is not kept is worked out.
    fn tell(
        &mut self,
        codes: &Codes,
        one: Exact,
        block: u8,
        stretch: Stretch,
        lo: u32,
        hi: u32,
    ) -> u64
        requires told { AreTold codes.now self.old }
        requires one { IsStanding codes.now one }
        requires block { block < length codes.now.blocks }
        requires stretch { IsStretch (placements codes.now block) stretch }
        requires from { stretch.lo ≤ lo }
        requires some { lo ≤ hi }
        requires to { hi ≤ stretch.hi }
        requires few { hi ≤ lo + 64 }
        ensures value { TellApart codes.now one block stretch lo (hi - lo) result }
        ensures told { AreTold codes.now self.new }
    {
        let of = beside_of(one, block, stretch, lo, hi);
        let slot = of.slot();
        if slot >= self.found.len() {
            return mask_of(codes, one, block, stretch, lo, hi).bits;
        }
        if let Some(mask) = self.found[slot]
            && mask.of == of
        {
            return mask.bits;
        }
        let mask = mask_of(codes, one, block, stretch, lo, hi);
        self.found[slot] = Some(mask);
        mask.bits
    }

    /// The part of the stretch that has the code, beside the exact blocks.
    pub(crate) fn part(
        &mut self,
        codes: &Codes,
        block: u8,
        stretch: Stretch,
        code: u32,
        exacts: &[Exact],
    ) -> Part
        requires told { AreTold codes.now self.old }
        requires block { block < length codes.now.blocks }
        requires stretch { IsStretch (placements codes.now block) stretch }
        requires from { stretch.lo ≤ code }
        requires to { code < stretch.hi }
        requires standing { All (IsStanding codes.now) exacts.now }
        ensures part { IsPart codes.now exacts.now block stretch result }
        ensures from { result.lo ≤ code }
        ensures to { code < result.hi }
        ensures told { AreTold codes.now self.new }
    {
        codes.limits();
        let lo = stretch.lo + (code - stretch.lo) / 64 * 64;
        let hi = stretch.hi.min(lo + 64);
        let mut bits = 0;
        for f in exacts {
            if may_clash(f.place, stretch.place) {
                bits |= self.tell(codes, *f, block, stretch, lo, hi);
            }
        }
        Part { lo, hi, bits }
    }
}

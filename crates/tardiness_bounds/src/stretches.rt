//! Stretches of the codes of each block, kept so that the placement of a code is found without a search.
ghost use Rattle.std.specs.Prelude.{◌≡◌, ◌≤◌, ◌<◌, IfOk, Some, length, slice_get};
ghost use Rattle.code_table.specs.Placements.{placements};
ghost use Rattle.tardiness_bounds.specs.Tables.{AreStretches};

use code_table::{Codes, Placement, Stretch};
use shape_exact::NoMemory;
use std::alloc::Global;

/// How many stretches of a block are kept at most.
const MOST: u32 = 4096;

/// The stretch of each code of a block, or of one in so many of them.
#[derive(Drop)]
pub(crate) struct StretchList {
    pub step: u32,
    pub list: Vec<Stretch>,
}

/// The stretches of a block's codes, of each or of one in so many where it has more than are kept.
pub(crate) fn stretches_of(alloc: Global, codes: &Codes, block: u8) -> Result<StretchList, NoMemory>
    requires { block < length codes.now.blocks }
    ensures { IfOk result (λ s. AreStretches codes.now block s) }
{
    let count = codes.count(block);
    let step = count / MOST + 1;
    let mut list = Vec::with_capacity(alloc, (count / step) as usize + 1)?;
    let mut code = 0;
    while code < count {
        list.push(codes.stretch(block, code))?;
        code += step;
    }
    Ok(StretchList { step, list })
}

/// The placement of a code: by the stretch that is kept for it, where that one has it, else by a search.
pub(crate) fn place_at(codes: &Codes, kept: &StretchList, block: u8, code: u32) -> Placement
    requires block { block < length codes.now.blocks }
    requires kept { AreStretches codes.now block kept.now }
    requires code { code < length (placements codes.now block) }
    ensures value { slice_get (placements codes.now block) code ≡ Some result }
    ensures turn { result.turn < 4 }
    ensures x { result.x ≤ 400 }
    ensures y { result.y ≤ 400 }
{
    let list = kept.list.as_slice();
    let i = (code / kept.step) as usize;
    if i < list.len() {
        let stretch = list[i];
        if stretch.lo <= code && code < stretch.hi {
            return codes.place_in(block, stretch, code);
        }
    }
    codes.place(block, code)
}

//! How many codes a block has.
ghost use Rattle.std.specs.Prelude.{◌≡◌, ◌≤◌, ◌↔◌, IsTrue};
ghost use Rattle.plan_rule.specs.Choices.{blocks, count};
ghost use Rattle.plan_rule.specs.Fronts.{HasCodes};
ghost use Rattle.plan_rule.specs.Yards.{choices};

use crate::block_count;
use code_table::Codes;

/// How many codes the block has; 0 past the last block.
#[tactic(auto, using(crate::proofs::CountLaws::counts))]
pub(crate) fn count_of(codes: &Codes, block: usize) -> u32
    ensures { result ≡ count (choices codes.now) block }
{
    if block < usize::from(block_count(codes)) {
        codes.count(block as u8)
    } else {
        0
    }
}

/// Whether each block has a code.
pub(crate) fn all_have_codes(codes: &Codes) -> bool
    ensures value { IsTrue result ↔ HasCodes (choices codes.now) }
    ensures few { blocks (choices codes.now) ≤ 32 }
{
    for block in 0..block_count(codes) {
        if count_of(codes, usize::from(block)) == 0 {
            return false;
        }
    }
    true
}

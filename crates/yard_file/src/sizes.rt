//! Finds blocks with too many placements.
ghost use Rattle.std.specs.Prelude.{◌≡◌, ◌<◌, length};
ghost use Rattle.yard_file.specs.Sizes.{too_many, first_too_many};

use crate::YardFault;
use code_table::{MOST_PLACEMENTS, placement_count};
use shape_exact::Yard;

/// The fault of the block, where it has too many placements.
#[tactic(auto, unfolding(crate::specs::Sizes::too_many))]
fn too_many(yard: &Yard, block: u8) -> Option<YardFault>
    requires { block < length yard.now.blocks }
    ensures { result ≡ too_many yard.now block }
{
    let count = placement_count(yard, block);
    if count > MOST_PLACEMENTS {
        Some(YardFault::TooManyPlacements(block, count))
    } else {
        None
    }
}

/// The fault of the first block with too many placements.
#[tactic(auto, using(common_lists::proofs::FirstLaws::first_more, common_lists::proofs::FirstLaws::first_is))]
pub(crate) fn first_too_many(yard: &Yard) -> Option<YardFault>
    ensures { result ≡ first_too_many yard.now }
{
    for block in 0..yard.blocks().len() {
        if let Some(fault) = too_many(yard, block as u8) {
            return Some(fault);
        }
    }
    None
}

//! Yards whose blocks have codes.
ghost use Rattle.std.specs.Prelude.{◌↔◌, ℕ, ◌≤◌, ◌<◌, length, IsTrue};
ghost use Rattle.code_table.specs.Placements.{placements};
ghost use Rattle.code_table.specs.Sizes.{CanBePlanned, most_placements};

use crate::count::placement_count;
use shape_exact::Yard;

/// The most placements that a block may have.
pub const MOST_PLACEMENTS: u64 = 1_048_576;

/// Whether no block has too many placements.
fn are_few(yard: &Yard) -> bool
    ensures { IsTrue result ↔ ((b : ℕ) → b < length yard.now.blocks → length (placements yard.now b) ≤ most_placements) }
{
    for block in 0..yard.blocks().len() {
        if placement_count(yard, block as u8) > MOST_PLACEMENTS {
            return false;
        }
    }
    true
}

/// Whether a yard has a plate and a block, and no block with more than 1,048,576 placements: what [`crate::Codes::new`]
/// asks. A yard that `yard_file::read_yard` gives has them.
pub fn can_be_planned(yard: &Yard) -> bool
    ensures { IsTrue result ↔ CanBePlanned yard.now }
{
    !yard.plates().is_empty() && !yard.blocks().is_empty() && are_few(yard)
}

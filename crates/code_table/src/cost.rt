//! What a block costs by its end.
ghost use Rattle.std.specs.Prelude.{◌≡◌, ◌≤◌, ◌<◌};
ghost use Rattle.shape_exact.specs.Yards.{IsBlock};
ghost use Rattle.code_table.specs.Placements.{cost_on};

use shape_exact::Block;

/// What a block costs that ends on this day: its weight for each day past the due day, its early cost for each day
/// before it.
pub fn cost_on(block: &Block, end: u16) -> u32
    requires { IsBlock block.now }
    ensures value { result ≡ cost_on block.now end }
    ensures few { end < 400 → result ≤ 400000 }
{
    if end < block.due {
        block.early as u32 * (block.due - end) as u32
    } else {
        block.weight as u32 * (end - block.due) as u32
    }
}

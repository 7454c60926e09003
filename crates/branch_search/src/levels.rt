//! How many codes of a block cost how much.
ghost use Rattle.std.specs.Prelude.{◌<◌, length};

use code_table::Codes;
use plan_rule::block_count;
use shape_exact::NoMemory;
use std::alloc::Global;

/// So many codes of a block cost so much, and one of them is `code`.
#[derive(Clone, Copy, Drop)]
pub(crate) struct Level {
    pub cost: u32,
    pub number: u32,
    pub code: u32,
}

/// Adds so many codes of one cost; the list ascends by cost.
fn add_level(list: &mut Vec<Level>, level: Level) -> Result<(), NoMemory> {
    for at in 0..list.len() {
        if list[at].cost == level.cost {
            list[at].number = list[at].number.saturating_add(level.number);
            return Ok(());
        }
        if list[at].cost > level.cost {
            list.insert(at, level)?;
            return Ok(());
        }
    }
    list.push(level)?;
    Ok(())
}

/// The levels of a block's codes, ascending by cost.
pub(crate) fn levels_of(alloc: Global, codes: &Codes, block: u8) -> Result<Vec<Level>, NoMemory>
    requires { block < length codes.now.blocks }
{
    let mut list = Vec::new(alloc);
    let mut code = 0;
    while code < codes.count(block) {
        let stretch = codes.stretch(block, code);
        add_level(
            &mut list,
            Level {
                cost: codes.own_cost(block, code),
                number: stretch.hi - code,
                code,
            },
        )?;
        code = stretch.hi;
    }
    Ok(list)
}

/// What a code costs; 0 where the block does not have it.
#[tactic(auto, using(plan_rule::proofs::CountLaws::counts))]
pub(crate) fn cost_of(codes: &Codes, block: u8, code: u32) -> u32 {
    if block < block_count(codes) && code < codes.count(block) {
        codes.own_cost(block, code)
    } else {
        0
    }
}

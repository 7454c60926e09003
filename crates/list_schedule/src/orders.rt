//! Orders of blocks.
ghost use Rattle.std.specs.Prelude.{◌<◌};
ghost use Rattle.plan_rule.specs.Choices.{blocks};
ghost use Rattle.plan_rule.specs.Yards.{choices};

use crate::draws::Draws;
use code_table::Codes;
use plan_rule::block_count;
use shape_exact::NoMemory;
use std::alloc::Global;

/// A rule by which blocks are ordered.
#[derive(Clone, Copy, Drop)]
pub enum Rule {
    /// The order of the yard's file.
    File,
    /// The earliest due day first.
    Due,
    /// The greatest weight for each cell and day first.
    Weight,
    /// The most cells and days first.
    Work,
}

/// No work of a block is so great.
const MOST_WORK: u64 = 0x1_0000_0000_0000;

/// The lesser, the earlier the block comes by the rule.
#[tactic(auto, using(plan_rule::proofs::CountLaws::counts))]
fn rank(codes: &Codes, rule: Rule, block: u8) -> u64
    requires { block < blocks (choices codes.now) }
{
    let blocks = codes.yard().blocks();
    let data = &blocks[block as usize];
    let work = u64::from(data.duration).saturating_mul(u64::from(codes.cells(block)));
    match rule {
        Rule::File => 0,
        Rule::Due => u64::from(data.due),
        Rule::Weight => {
            let dear = u64::from(data.weight).saturating_mul(1_000_000);
            MOST_WORK.saturating_sub(dear / work.max(1))
        }
        Rule::Work => MOST_WORK.saturating_sub(work),
    }
}

/// The blocks from one on, in the order of a rule; blocks of one rank in the order of the yard's file.
pub(crate) fn ordered(
    alloc: Global,
    codes: &Codes,
    first: u8,
    rule: Rule,
) -> Result<Vec<u8>, NoMemory> {
    let mut ranked = Vec::new(alloc);
    for block in first..block_count(codes) {
        let rank = rank(codes, rule, block).saturating_mul(64);
        ranked.push(rank.saturating_add(u64::from(block)))?;
    }
    ranked.sort_unstable();
    let mut order = Vec::new(alloc);
    for rank in ranked.as_slice() {
        order.push((*rank % 64) as u8)?;
    }
    Ok(order)
}

/// Takes one block out and puts it in elsewhere.
fn move_one(list: &mut Vec<u8>, draws: &mut Draws) -> Result<(), NoMemory> {
    let count = list.len();
    if count < 2 {
        return Ok(());
    }
    let from = draws.below(count);
    let to = draws.below(count);
    let block = list.remove(from);
    list.insert(to, block)?;
    Ok(())
}

/// The order after one to three moves.
pub(crate) fn moved(alloc: Global, order: &[u8], draws: &mut Draws) -> Result<Vec<u8>, NoMemory> {
    let mut list = order.to_vec(alloc)?;
    for _ in 0..1 + draws.below(3) {
        move_one(&mut list, draws)?;
    }
    Ok(list)
}

//! The command `gen SEED BLOCKS`.
ghost use Rattle.std.specs.Prelude.{◌<◌, ◌≤◌, ◌^◌, IfOk};
ghost use Rattle.scheduler_run.specs.Outcomes.{outcome_of};
ghost use Rattle.scheduler_run.specs.GenAnswers.{SaysYard};

use crate::reply::Reply;
use shape_exact::NoMemory;
use std::alloc::Global;
use yard_generator::generate;

/// The reply to a seed and a number of blocks: the yard that is drawn from them.
pub(crate) fn reply_to_gen<'a>(alloc: Global, seed: u32, blocks: u8) -> Result<Reply<'a>, NoMemory>
    requires seed { seed < 2 ^ 31 }
    requires blocks { (1 ≤ blocks) × (blocks ≤ 32) }
    ensures { IfOk result (λ reply. SaysYard seed blocks (outcome_of reply)) }
{
    Ok(Reply {
        status: 0,
        made: None,
        said: generate(alloc, seed, blocks)?,
    })
}

//! Generated yards as values.
ghost use Rattle.std.specs.Prelude.{◌≡◌, ◌<◌, ◌≤◌, ◌^◌, Ok, IfOk};
ghost use Rattle.code_table.specs.Sizes.{CanBePlanned};
ghost use Rattle.yard_file.specs.Reads.{yard_of};
ghost use Rattle.yard_generator.specs.Texts.{yard_text};
ghost use Rattle.yard_generator.specs.Yards.{drawn_yard};

use crate::yards::generate;
use shape_exact::{NoMemory, Yard};
use std::alloc::Global;
use yard_file::{YardFault, read_yard};

/// The yard that is drawn from the seed, with so many blocks: the one that its text is read as. Takes memory for the text
/// and for reading it.
#[tactic(auto, using(crate::proofs::YardLaws::text_read))]
pub fn drawn_yard(alloc: Global, seed: u32, blocks: u8) -> Result<Yard, NoMemory>
    requires seed { seed < 2 ^ 31 }
    requires blocks { (1 ≤ blocks) × (blocks ≤ 32) }
    ensures yard { IfOk result (λ yard. yard ≡ drawn_yard seed blocks) }
    ensures text { yard_of (yard_text seed blocks) ≡ Ok (drawn_yard seed blocks) }
    ensures planned { IfOk result CanBePlanned }
{
    let text = generate(alloc, seed, blocks)?;
    match read_yard(alloc, text.as_slice()) {
        Ok(yard) => Ok(yard),
        Err(YardFault::Memory) => Err(NoMemory),
        Err(_) => unreachable!(),
    }
}

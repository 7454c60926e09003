//! Writes yards.
ghost use Rattle.std.specs.Prelude.{◌≡◌, ◌<◌, ◌≤◌, ◌^◌, ◌++◌, IfOk, OnOk};
ghost use Rattle.std.specs.String.{string_bytes};
ghost use Rattle.yard_generator.specs.Draws.{blocks_from};
ghost use Rattle.yard_generator.specs.Texts as spec;

use crate::draws::Draws;
use crate::texts::{put_block, put_plate};
use shape_exact::NoMemory;
use std::alloc::{AllocError, Global};

/// The days below 200 that are the last two of each seven.
#[tactic(auto, unfolding(crate::specs::Texts::closed_days))]
fn closed_days(alloc: Global) -> Result<Vec<u16>, AllocError>
    ensures { IfOk result (λ days. days.items ≡ spec.closed_days) }
{
    (0..200).filter(|day| *day % 7 >= 5).collect(alloc)
}

/// Writes so many blocks, drawn from the seed on.
fn put_blocks(out: &mut String, seed: u32, blocks: u8) -> Result<(), AllocError>
    requires { seed < 2 ^ 31 }
    ensures { OnOk result (string_bytes out.new
        ≡ string_bytes out.old ++ spec.blocks_text 0 (blocks_from blocks seed)) }
{
    let mut draws = Draws::new(seed);
    for number in 0..blocks {
        put_block(out, number, draws.block())?;
    }
    Ok(())
}

/// The text of the yard that is drawn from the seed, with so many blocks. Takes memory for the text alone, some hundred
/// bytes for each block.
#[tactic(auto, unfolding(crate::specs::Texts::yard_text))]
pub fn generate(alloc: Global, seed: u32, blocks: u8) -> Result<Vec<u8>, NoMemory>
    requires seed { seed < 2 ^ 31 }
    requires blocks { (1 ≤ blocks) × (blocks ≤ 32) }
    ensures { IfOk result (λ text. text.items ≡ spec.yard_text seed blocks) }
{
    let mut out = String::new(alloc);
    let closed = closed_days(alloc)?;
    out.push_str("version = 1\ndays = 200\n")?;
    put_plate(&mut out, 0, &closed)?;
    put_plate(&mut out, 1, &closed)?;
    put_plate(&mut out, 2, &closed)?;
    put_blocks(&mut out, seed, blocks)?;
    Ok(out.into_bytes())
}

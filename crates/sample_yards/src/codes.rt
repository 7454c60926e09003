//! The codes of a yard that a test writes.
ghost use Rattle.sample_yards.specs.Texts.{file_of};
ghost use Rattle.yard_file.specs.Reads.{yard_of, Gives};

use code_table::Codes;
use shape_exact::NoMemory;
use std::alloc::Global;
use yard_file::{YardFault, read_yard};

/// The codes of the yard that a file's bytes spell, or why the file is refused. Besides, want of memory.
pub fn codes_of(alloc: Global, bytes: &[u8]) -> Result<Codes, YardFault>
    ensures { Gives result (yard_of bytes.now) }
{
    let yard = read_yard(alloc, bytes)?;
    match Codes::new(alloc, &yard) {
        Ok(codes) => Ok(codes),
        Err(NoMemory) => Err(YardFault::Memory),
    }
}

/// The codes of the yard of version 1 with so many days and these plates and blocks, each a list of tables as a yard file
/// writes them, or why that file is refused.
pub fn codes_in(alloc: Global, days: u16, plates: &str, blocks: &str) -> Result<Codes, YardFault>
    ensures { Gives result (yard_of (file_of days plates.now blocks.now)) }
{
    match format!(in alloc; "version=1\ndays={days}\nplate=[{plates}]\nblock=[{blocks}]\n") {
        Ok(text) => codes_of(alloc, text.as_bytes()),
        Err(_) => Err(YardFault::Memory),
    }
}

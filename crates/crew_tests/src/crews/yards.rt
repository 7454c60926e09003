//! The codes of yards of two blocks.
ghost use Rattle.std.specs.Prelude.{◌≡◌, length};

use code_table::Codes;
use std::alloc::Global;
use std::process::Abort;

/// The codes of a yard of two blocks.
pub(crate) fn codes_of(rt: &impl Abort, alloc: Global, text: &[u8]) -> Codes
    ensures { length result.blocks ≡ 2 }
{
    let codes = sample_yards::codes_of(alloc, text).expect(rt, "codes");
    assert!(rt; codes.yard().blocks().len() == 2);
    codes
}

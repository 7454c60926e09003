//! The text of a yard's file.
ghost use Rattle.std.specs.Prelude.{◌≡◌, ◌≤◌, IfOk};
ghost use Rattle.code_table.specs.Sizes.{CanBePlanned};
ghost use Rattle.yard_io.specs.Desk.{Same, HasCause};
ghost use Rattle.yard_file.specs.Reads.{Gives};
ghost use Rattle.scheduler_run.specs.YardTexts.{yard_in, IsTextOf};

use shape_exact::Yard;
use std::alloc::Global;
use yard_file::{MOST_BYTES, YardFault, read_yard};
use yard_io::{Desk, Trouble, read_bytes};

/// What was read of a yard's file.
#[derive(Drop)]
pub(crate) enum YardText {
    /// It has too many bytes, and was not read.
    TooLong,
    /// Its bytes.
    Bytes(Vec<u8>),
}

/// The text of the file with this name. A file that is too long is not read.
pub(crate) fn read_yard_text<D: Desk>(
    alloc: Global,
    desk: &mut D,
    name: &str,
) -> Result<YardText, Trouble>
    ensures text { IfOk result (IsTextOf (D.file desk.old name.now)) }
    ensures same { Same (D.file desk.old) (D.said desk.old) (D.file desk.new) (D.said desk.new) }
    ensures tells { D.tells desk.new ≡ D.tells desk.old }
    ensures cause { HasCause (D.read_faults desk.old) (D.read_faults desk.new) result }
    ensures writes { D.write_faults desk.old ≤ D.write_faults desk.new }
{
    let total = desk.length(name)?;
    if total > MOST_BYTES {
        return Ok(YardText::TooLong);
    }
    Ok(YardText::Bytes(read_bytes(alloc, desk, name, total)?))
}

/// The yard that the text spells, which can be planned, or its first fault.
pub(crate) fn yard_of_text(alloc: Global, text: &YardText) -> Result<Yard, YardFault>
    ensures yard { Gives result (yard_in text.now) }
    ensures planned { IfOk result CanBePlanned }
{
    match text {
        YardText::TooLong => Err(YardFault::TooLong),
        YardText::Bytes(bytes) => read_yard(alloc, bytes.as_slice()),
    }
}

//! Texts of yard files with one broken rule, or with two that are neighbours in the order, and the line that each is
//! refused with.

use super::block_faults::BLOCK_FAULTS;
use super::piece_faults::PIECE_FAULTS;
use super::text_of;
use super::top_faults::TOP_FAULTS;
use super::two_faults::TWO_FAULTS;
use std::alloc::Global;
use std::test::Fail;
use yard_file::read_yard;

/// The keys of the top table before `plate` and `block`, the items of these two, and what the line says after
/// `refused yard`.
pub type Row = (&'static str, &'static str, &'static str, &'static str);

/// Whether the file of a row is refused with its line.
fn is_told(alloc: Global, row: Row) -> Result<bool, Fail> {
    let (head, plates, blocks, told) = row;
    let text = text_of(alloc, head, plates, blocks)?;
    let line = format!(in alloc; "refused yard {told}\n")?;
    match read_yard(alloc, text.as_bytes()) {
        Ok(_) => Ok(false),
        Err(fault) => Ok(fault.line(alloc)?.as_slice() == line.as_bytes()),
    }
}

#[test]
fn tells_the_first_broken_rule(rt: HostRuntime) -> Result<(), Fail> {
    for rows in [
        TOP_FAULTS.as_slice(),
        BLOCK_FAULTS.as_slice(),
        PIECE_FAULTS.as_slice(),
        TWO_FAULTS.as_slice(),
    ] {
        for row in rows {
            assert!(rt; is_told(rt.alloc(), *row)?, "{}", row.3);
        }
    }
    Ok(())
}

//! The code that a block's line tells.
ghost use Rattle.std.specs.Prelude.{◌≡◌, ◌<◌, ◌↔◌, length, position, slice_get, Some, IsTrue, IfSome};
ghost use Rattle.std.specs.Str.{bytes_eq};
ghost use Rattle.shape_exact.specs.Yards.{IsYard};
ghost use Rattle.plan_text.specs.Rows.{entry};
ghost use Rattle.plan_text.specs.Told as told;
ghost use Rattle.plan_text.specs.Reading.{line_code};

use crate::fault::PlanFault;
use crate::figures::check_figures;
use crate::form::{Row, row_of};
use crate::heads::tells_early;
use code_table::{Codes, Placement};
use shape_exact::{Block, Plate};

/// The place of the first plate with this name.
fn first_named(plates: &[Plate], name: &[u8]) -> Option<usize>
    ensures { result ≡ position (λ p. bytes_eq p.name name.now) plates.now }
{
    plates.iter().position(|plate| plate.name.bytes() == name)
}

/// The number of the plate with this name.
fn plate_named(codes: &Codes, name: &[u8]) -> Option<u8>
    ensures value { result ≡ told.plate_named codes.now name.now }
    ensures within { IfSome result (λ p. p < length codes.now.plates) }
{
    let plate = first_named(codes.yard().plates(), name)?;
    Some(plate as u8)
}

/// Whether the figures that tell a placement are within its fields.
fn fits_fields(row: &Row<'_>) -> bool
    ensures { IsTrue result ↔ told.HasFields (entry row.now) }
{
    row.turn <= 255 && row.x <= 65_535 && row.y <= 65_535 && row.start <= 65_535
}

/// The code, and the end, of the block's placement that the row tells on this plate; None exactly where it is none.
#[tactic(auto, unfolding(crate::specs::Told::told_at))]
fn told_at(codes: &Codes, block: u8, of: &Block, plate: u8, row: &Row<'_>) -> Option<(u32, u16)>
    requires of { slice_get codes.now.blocks block ≡ Some of.now }
    requires plate { plate < length codes.now.plates }
    requires limits { IsYard codes.now }
    ensures { result ≡ told.told_at codes.now of.now plate (entry row.now) }
{
    if !fits_fields(row) {
        return None;
    }
    let start = row.start as u16;
    let end = codes.calendar(plate).end(start, of.duration)?;
    let placement = Placement {
        start,
        end,
        plate,
        turn: row.turn as u8,
        y: row.y as u16,
        x: row.x as u16,
    };
    let code = codes.code(block, &placement)?;
    Some((code, end))
}

/// The code that line `number` tells of the block, or the line's first fault.
#[tactic(auto, unfolding(crate::specs::Reading::line_code))]
pub(crate) fn code_of_line(
    codes: &Codes,
    block: u8,
    of: &Block,
    number: u64,
    line: &[u8],
) -> Result<u32, PlanFault>
    requires of { slice_get codes.now.blocks block ≡ Some of.now }
    requires limits { IsYard codes.now }
    ensures { result ≡ line_code codes.now of.now number line.now }
{
    let Some(row) = row_of(tells_early(codes.yard()), line) else {
        return Err(PlanFault::Line(number));
    };
    if row.name != of.name.bytes() {
        return Err(PlanFault::Name(number));
    }
    let Some(plate) = plate_named(codes, row.plate) else {
        return Err(PlanFault::Name(number));
    };
    let Some((code, end)) = told_at(codes, block, of, plate, &row) else {
        return Err(PlanFault::NotAPlacement(number));
    };
    check_figures(number, &row, u32::from(of.due), u32::from(end))?;
    Ok(code)
}

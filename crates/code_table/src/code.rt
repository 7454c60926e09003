//! The code of a placement.
ghost use Rattle.std.specs.Prelude.{◌≡◌, ℕ, ◌≤◌, ◌<◌, ◌↔◌, Some, IsTrue, length, map, slice_get};
ghost use Rattle.shape_exact.specs.Shapes.{turned};
ghost use Rattle.shape_exact.specs.Yards.{IsYard, IsBlock};
ghost use Rattle.plate_calendar.specs.Calendars.{open_days};
ghost use Rattle.code_table.specs.Codes.{IsCode, HasStand};
ghost use Rattle.code_table.specs.Placements.{placements_of};
ghost use Rattle.code_table.specs.Tables.{IsTable};

use crate::count::stand_end;
use crate::grid;
use crate::placement::Placement;
use crate::stand::{Stand, number_of};
use crate::table::Table;
use plate_calendar::Calendar;
use shape_exact::{Block, Yard};

/// Whether the block may have the start, the end, the plate and the turn of the placement, whose fields are free.
fn has_stand(yard: &Yard, calendars: &[Calendar], block: &Block, placement: &Placement) -> bool
    requires calendars { calendars.now ≡ map (λ p. open_days yard.now.days p.closed) yard.now.plates }
    requires block { IsBlock block.now }
    ensures { IsTrue result ↔ HasStand yard.now block.now placement.now }
{
    if placement.start >= yard.days() || placement.turn >= 4 {
        return false;
    }
    let plates = yard.plates();
    if placement.plate as usize >= plates.len() || !block.turns[placement.turn as usize] {
        return false;
    }
    let at = Stand {
        start: placement.start,
        plate: placement.plate,
        turn: placement.turn,
    };
    match stand_end(yard, calendars, block, at) {
        Some(end) => end == placement.end,
        None => false,
    }
}

/// The code of the placement. None where it is no placement of the block.
pub(crate) fn code_of(
    yard: &Yard,
    calendars: &[Calendar],
    block: &Block,
    table: &Table,
    placement: &Placement,
) -> Option<u32>
    requires limits { IsYard yard.now }
    requires calendars { calendars.now ≡ map (λ p. open_days yard.now.days p.closed) yard.now.plates }
    requires block { IsBlock block.now }
    requires table { IsTable yard.now block.now table.now }
    ensures { IsCode (placements_of yard.now block.now) placement.now result }
{
    if !has_stand(yard, calendars, block, placement) {
        return None;
    }
    let plates = yard.plates();
    let plate = &plates[placement.plate as usize];
    let shapes = table.shapes.as_slice();
    let shape = &shapes[placement.turn as usize];
    let Some(place) = grid::place_in(plate, shape, placement.y, placement.x) else {
        return None;
    };
    let at = Stand {
        start: placement.start,
        plate: placement.plate,
        turn: placement.turn,
    };
    let sums = table.sums.as_slice();
    Some(sums[number_of(yard, at) as usize] + place)
}

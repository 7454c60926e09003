//! Where a code stands.
ghost use Rattle.std.specs.Prelude.{◌≡◌, ℕ, ◌*◌, ◌/◌, ◌%◌, ◌≤◌, ◌<◌, length, map};
ghost use Rattle.shape_exact.specs.Yards.{IsYard, IsBlock};
ghost use Rattle.plate_calendar.specs.Calendars.{open_days};
ghost use Rattle.code_table.specs.Placements.{placements_of};
ghost use Rattle.code_table.specs.Grids.{columns};
ghost use Rattle.code_table.specs.Sizes.{most_placements};
ghost use Rattle.code_table.specs.Spots.{IsSpot, spot_placement};
ghost use Rattle.code_table.specs.Tables.{IsSums};

use crate::count::stand_end;
use crate::grid;
use crate::placement::Placement;
use crate::search::place_of;
use crate::stand::nth_stand;
use plate_calendar::Calendar;
use shape_exact::{Block, Plate, Shape, Yard};

/// The start, end, plate and turn of a placement, and its place among the positions that share these.
#[derive(Clone, Copy)]
pub(crate) struct Spot {
    pub(crate) start: u16,
    pub(crate) end: u16,
    pub(crate) plate: u8,
    pub(crate) turn: u8,
    pub(crate) rest: u32,
}

/// Where a code of the block stands. The calendars are those of the plates, and the sums the block's.
pub(crate) fn spot_of(
    yard: &Yard,
    calendars: &[Calendar],
    block: &Block,
    sums: &[u32],
    code: u32,
) -> Spot
    requires limits { IsYard yard.now }
    requires calendars { calendars.now ≡ map (λ p. open_days yard.now.days p.closed) yard.now.plates }
    requires block { IsBlock block.now }
    requires sums { IsSums yard.now block.now sums.now }
    requires few { length (placements_of yard.now block.now) ≤ most_placements }
    requires code { code < length (placements_of yard.now block.now) }
    ensures { IsSpot yard.now block.now code result }
{
    let k = place_of(sums, code);
    let at = nth_stand(yard, k as u32);
    let Some(end) = stand_end(yard, calendars, block, at) else {
        unreachable!()
    };
    Spot {
        start: at.start,
        end,
        plate: at.plate,
        turn: at.turn,
        rest: code - sums[k],
    }
}

/// The placement of a spot: its place among the positions tells the row and the column.
pub(crate) fn place_at(plate: &Plate, shape: &Shape, spot: Spot) -> Placement
    requires pitch { 1 ≤ plate.now.pitch }
    requires width { plate.now.width ≤ 400 }
    requires columns { 0 < columns plate.now shape.now }
    requires y { spot.rest / columns plate.now shape.now * plate.now.pitch ≤ 400 }
    requires x { spot.rest % columns plate.now shape.now * plate.now.pitch ≤ 400 }
    ensures { result ≡ spot_placement plate.now shape.now spot }
{
    let columns = grid::columns(plate, shape) as u32;
    let pitch = plate.pitch as u32;
    Placement {
        start: spot.start,
        end: spot.end,
        plate: spot.plate,
        turn: spot.turn,
        y: (spot.rest / columns * pitch) as u16,
        x: (spot.rest % columns * pitch) as u16,
    }
}

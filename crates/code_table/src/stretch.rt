//! Stretches: the codes of one start, plate and turn.
ghost use Rattle.std.specs.Prelude.{◌≡◌, ℕ, ◌*◌, ◌-◌, ◌/◌, ◌%◌, ◌≤◌, ◌<◌, length, map};
ghost use Rattle.shape_exact.specs.Yards.{IsYard, IsBlock};
ghost use Rattle.plate_calendar.specs.Calendars.{open_days};
ghost use Rattle.code_table.specs.Placements.{placements_of};
ghost use Rattle.code_table.specs.Stretches.{HasEach, IsStretch, nth_place};
ghost use Rattle.code_table.specs.Tables.{IsTable};

use crate::count::stand_end;
use crate::grid;
use crate::placement::Placement;
use crate::search::place_of;
use crate::stand::nth_stand;
use crate::table::Table;
use plate_calendar::Calendar;
use shape_exact::{Block, Yard};

/// Codes of one block that share their start, end, plate and turn: those from `lo` up to, and without, `hi`. Their
/// positions are those of the plate row by row, with so many columns to a row, each a pitch from the next.
#[derive(Clone, Copy, PartialEq, Eq, Debug)]
pub struct Stretch {
    pub lo: u32,
    pub hi: u32,
    /// The placement of the first code.
    pub place: Placement,
    pub columns: u32,
    pub pitch: u32,
}

impl Stretch {
    /// The placement of a code of the stretch, by two divisions.
    pub(crate) fn nth(self, code: u32) -> Placement
        requires from { self.lo ≤ code }
        requires columns { 0 < self.columns }
        requires y { (code - self.lo) / self.columns * self.pitch ≤ 400 }
        requires x { (code - self.lo) % self.columns * self.pitch ≤ 400 }
        ensures { result ≡ nth_place self code }
    {
        let k = code - self.lo;
        let first = self.place;
        Placement {
            start: first.start,
            end: first.end,
            plate: first.plate,
            turn: first.turn,
            y: (k / self.columns * self.pitch) as u16,
            x: (k % self.columns * self.pitch) as u16,
        }
    }
}

/// The stretch that has a code of the block. The calendars are those of the plates, and the table is the block's.
pub(crate) fn stretch_of(
    yard: &Yard,
    calendars: &[Calendar],
    block: &Block,
    table: &Table,
    code: u32,
) -> Stretch
    requires limits { IsYard yard.now }
    requires calendars { calendars.now ≡ map (λ p. open_days yard.now.days p.closed) yard.now.plates }
    requires block { IsBlock block.now }
    requires table { IsTable yard.now block.now table.now }
    requires code { code < length (placements_of yard.now block.now) }
    ensures stretch { IsStretch (placements_of yard.now block.now) result }
    ensures each { HasEach (placements_of yard.now block.now) result }
    ensures from { result.lo ≤ code }
    ensures to { code < result.hi }
    ensures end { result.place.end < yard.now.days }
{
    let sums = table.sums.as_slice();
    let k = place_of(sums, code);
    let at = nth_stand(yard, k as u32);
    let Some(end) = stand_end(yard, calendars, block, at) else {
        unreachable!()
    };
    let plates = yard.plates();
    let plate = &plates[at.plate as usize];
    let shapes = table.shapes.as_slice();
    let shape = &shapes[at.turn as usize];
    Stretch {
        lo: sums[k],
        hi: sums[k + 1],
        place: Placement {
            start: at.start,
            end,
            plate: at.plate,
            turn: at.turn,
            y: 0,
            x: 0,
        },
        columns: grid::columns(plate, shape) as u32,
        pitch: plate.pitch as u32,
    }
}

//! How many placements a block has.
ghost use Rattle.std.specs.Prelude.{◌≡◌, ℕ, ◌+◌, ◌*◌, ◌≤◌, ◌<◌, [], Some, length, map, slice_get, IfNone, IfSome};
ghost use Rattle.shape_exact.specs.Shapes.{turned};
ghost use Rattle.shape_exact.specs.Yards.{IsBlock};
ghost use Rattle.plate_calendar.specs.Calendars.{open_days};
ghost use Rattle.code_table.specs.Placements.{placements};
ghost use Rattle.code_table.specs.Stands.{stands, stand_at, nth_stand, EndsOn};

use crate::grid;
use crate::stand::{Stand, calendars_of, nth_stand, stands, turns_of};
use plate_calendar::Calendar;
use shape_exact::{Block, Shape, Yard};

/// The day on which the block ends that starts with the stand. None where the start is before its release, or where it
/// has no end. The calendars are those of the plates.
pub(crate) fn stand_end(
    yard: &Yard,
    calendars: &[Calendar],
    block: &Block,
    at: Stand,
) -> Option<u16>
    requires calendars { calendars.now ≡ map (λ p. open_days yard.now.days p.closed) yard.now.plates }
    requires duration { 1 ≤ block.now.duration }
    requires plate { at.plate < length yard.now.plates }
    ensures none { IfNone result ((turn : ℕ) → stand_at yard.now block.now at.start at.plate turn ≡ []) }
    ensures endless { IfNone result ((end : ℕ) → EndsOn yard.now block.now at.start at.plate end → ⊥) }
    ensures some { IfSome result (λ end. EndsOn yard.now block.now at.start at.plate end) }
{
    if at.start < block.release {
        return None;
    }
    let calendar = &calendars[at.plate as usize];
    calendar.end(at.start, block.duration)
}

/// How many placements of the block have the k-th stand. The calendars are those of the plates, and the shapes the
/// block's four turns.
pub(crate) fn stand_len(
    yard: &Yard,
    calendars: &[Calendar],
    shapes: &[Shape],
    block: &Block,
    k: u32,
) -> u32
    requires calendars { calendars.now ≡ map (λ p. open_days yard.now.days p.closed) yard.now.plates }
    requires block { IsBlock block.now }
    requires turns { length shapes.now ≡ 4 }
    requires shapes { (q : ℕ) → q < 4 → slice_get shapes.now q ≡ Some (turned q block.now.shape) }
    requires k { k < stands yard.now }
    ensures value { result ≡ length (nth_stand yard.now block.now k) }
    ensures few { result ≤ 160801 }
{
    let at = nth_stand(yard, k);
    let Some(_) = stand_end(yard, calendars, block, at) else {
        return 0;
    };
    if !block.turns[at.turn as usize] {
        return 0;
    }
    let plates = yard.plates();
    let plate = &plates[at.plate as usize];
    let shape = &shapes[at.turn as usize];
    grid::rows(plate, shape) as u32 * grid::columns(plate, shape) as u32
}

/// The number of placements of the block with this number.
pub fn placement_count(yard: &Yard, block: u8) -> u64
    requires { block < length yard.now.blocks }
    ensures { result ≡ length (placements yard.now block) }
{
    let calendars = calendars_of(yard);
    let blocks = yard.blocks();
    let block = &blocks[block as usize];
    let shapes = turns_of(&block.shape);
    let mut count = 0;
    for k in 0..stands(yard) {
        count += stand_len(yard, calendars.as_slice(), shapes.as_slice(), block, k) as u64;
    }
    count
}

//! The table of a block: what tells its codes apart without a list of them.
ghost use Rattle.std.specs.Prelude.{◌≡◌, ℕ, ◌+◌, ◌-◌, ◌*◌, ◌≤◌, ◌<◌, Some, length, map, slice_get, slice_index, IfOk};
ghost use Rattle.shape_exact.specs.Shapes.{turned};
ghost use Rattle.shape_exact.specs.Yards.{IsBlock};
ghost use Rattle.plate_calendar.specs.Calendars.{open_days};
ghost use Rattle.code_table.specs.Placements.{placements, placements_of};
ghost use Rattle.code_table.specs.Sizes.{most_placements};
ghost use Rattle.code_table.specs.Tables.{IsSums, IsTable, AreTables};

use crate::count::stand_len;
use crate::least::least_of;
use crate::stand::{stands, turns_of};
use arrayvec::ArrayVec;
use plate_calendar::Calendar;
use shape_exact::{Block, NoMemory, Shape, Yard};
use std::alloc::Global;

/// A block's shape in its four turns and the number of its cells; for each stand, how many placements the stands before
/// it have; and the number of its placements and their least cost.
#[derive(Drop)]
pub(crate) struct Table {
    pub(crate) shapes: ArrayVec<Shape, 4>,
    pub(crate) cells: u32,
    pub(crate) sums: Vec<u32>,
    pub(crate) count: u32,
    pub(crate) least: Option<u32>,
}

/// For each stand how many placements the stands before it have, and last the number of all.
fn sums_of(
    alloc: Global,
    yard: &Yard,
    calendars: &[Calendar],
    shapes: &[Shape],
    block: &Block,
) -> Result<Vec<u32>, NoMemory>
    requires calendars { calendars.now ≡ map (λ p. open_days yard.now.days p.closed) yard.now.plates }
    requires block { IsBlock block.now }
    requires turns { length shapes.now ≡ 4 }
    requires shapes { (q : ℕ) → q < 4 → slice_get shapes.now q ≡ Some (turned q block.now.shape) }
    requires few { length (placements_of yard.now block.now) ≤ most_placements }
    ensures { IfOk result (λ s. IsSums yard.now block.now s.items) }
{
    let count = stands(yard);
    let mut sums = Vec::with_capacity(alloc, count as usize + 1)?;
    let mut total = 0u32;
    for k in 0..count {
        sums.push(total)?;
        total += stand_len(yard, calendars, shapes, block, k);
    }
    sums.push(total)?;
    Ok(sums)
}

/// The last of some numbers.
fn last_of(numbers: &[u32]) -> u32
    requires { 1 ≤ length numbers.now }
    ensures { result ≡ slice_index numbers.now (length numbers.now - 1) }
{
    numbers[numbers.len() - 1]
}

/// The table of a block.
fn table_of(
    alloc: Global,
    yard: &Yard,
    calendars: &[Calendar],
    block: &Block,
) -> Result<Table, NoMemory>
    requires calendars { calendars.now ≡ map (λ p. open_days yard.now.days p.closed) yard.now.plates }
    requires block { IsBlock block.now }
    requires few { length (placements_of yard.now block.now) ≤ most_placements }
    ensures { IfOk result (λ t. IsTable yard.now block.now t) }
{
    let shapes = turns_of(&block.shape);
    let sums = sums_of(alloc, yard, calendars, shapes.as_slice(), block)?;
    let count = last_of(sums.as_slice());
    let least = least_of(yard, calendars, block, sums.as_slice());
    Ok(Table {
        shapes,
        cells: block.shape.cells(),
        sums,
        count,
        least,
    })
}

/// The tables of the blocks, by block.
pub(crate) fn tables_of(
    alloc: Global,
    yard: &Yard,
    calendars: &[Calendar],
) -> Result<Vec<Table>, NoMemory>
    requires calendars { calendars.now ≡ map (λ p. open_days yard.now.days p.closed) yard.now.plates }
    requires few { (b : ℕ) → b < length yard.now.blocks → length (placements yard.now b) ≤ most_placements }
    ensures { IfOk result (λ t. AreTables yard.now t.items) }
{
    let blocks = yard.blocks();
    let mut tables = Vec::with_capacity(alloc, blocks.len())?;
    for block in blocks {
        tables.push(table_of(alloc, yard, calendars, block)?)?;
    }
    Ok(tables)
}

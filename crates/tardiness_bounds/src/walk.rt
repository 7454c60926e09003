//! A walk over the free codes of a block.
ghost use Rattle.std.specs.Prelude.{◌≡◌, ◌<◌, ◌≤◌, ◌+◌, ◌*◌, ◌-◌, All, IfNone, IfSome, Some, true, false, length, slice_get};
ghost use Rattle.shape_exact.specs.Yards.{IsBlock};
ghost use Rattle.shape_exact.specs.declared.block.Block.{Block};
ghost use Rattle.code_table.specs.Placements.{cost_on, placements};
ghost use Rattle.code_table.specs.Stretches.{IsStretch};
ghost use Rattle.tardiness_bounds.specs.Firsts.{HasNone, IsFirst};
ghost use Rattle.tardiness_bounds.specs.Nexts.{IsCheap};
ghost use Rattle.tardiness_bounds.specs.Standings.{IsStanding};
ghost use Rattle.tardiness_bounds.specs.Stands.{IsGround};
ghost use Rattle.tardiness_bounds.specs.Walks.{AreDear, IsAt, IsFound, IsFreeBeside, IsHere, IsPast, IsWalk};

use crate::block::block_at;
use crate::ground::{ForbiddenColumns, first_clear};
use crate::stand::{Stand, no_stand, stand_at};
use crate::standing::Standing;
use crate::tables::YardTables;
use arrayvec::ArrayVec;
use code_table::{Stretch, cost_on};
use shape_exact::Block;

/// The codes of a block from `from` on, which stands at a row and a column of a stand, where it is one of the stand's; and
/// the forbidden columns of a row, as the last search left them.
#[derive(Drop)]
pub(crate) struct Walk {
    pub from: u32,
    pub row: u16,
    pub column: u16,
    pub stand: Stand,
    pub forbidden: ForbiddenColumns,
}

/// A walk that begins with a code.
pub(crate) fn walk_from(code: u32) -> Walk
    ensures from { result.from ≡ code }
    ensures none { result.stand.stretch.hi ≡ 0 }
{
    Walk {
        from: code,
        row: 0,
        column: 0,
        stand: no_stand(),
        forbidden: ArrayVec::new(),
    }
}

/// What a block costs at least that starts on a day or later.
fn floor(block: &Block, start: u16) -> u32
    requires { IsBlock block.now }
    ensures { result ≡ block.now.weight * (start - block.now.due) }
{
    u32::from(block.weight) * u32::from(start.saturating_sub(block.due))
}

/// The first code, from `hi` on, that may cost at most so much: none does where a later start costs more.
fn past(tables: &YardTables<'_>, block: u8, stretch: Stretch, most: u32) -> u32
    requires block { block < length tables.now.yard.blocks }
    requires stretch { IsStretch (placements tables.now.yard block) stretch }
    requires some { stretch.lo < stretch.hi }
    requires dear { (b : Block) → slice_get tables.now.yard.blocks block ≡ Some b → most < cost_on b stretch.place.end }
    ensures onward { stretch.hi ≤ result }
    ensures within { result ≤ length (placements tables.now.yard block) }
    ensures dear { AreDear tables.now.yard block most stretch.lo result }
{
    let codes = tables.codes();
    codes.codes_ascend(block);
    if floor(block_at(codes, block), stretch.place.start) > most {
        return codes.count(block);
    }
    stretch.hi
}

/// Enters the stretch of the next code, where its codes cost at most so much. Where they cost more, the walk goes past it.
fn enter(tables: &YardTables<'_>, list: &[Standing], block: u8, most: u32, walk: &mut Walk) -> bool
    requires list { All (IsStanding tables.now.yard) list.now }
    requires few { length list.now ≤ 32 }
    requires block { block < length tables.now.yard.blocks }
    requires more { walk.old.from < length (placements tables.now.yard block) }
    requires done { walk.old.stand.stretch.hi ≤ walk.old.from }
    ensures here { result ≡ true → IsHere tables.now.yard list.now block most walk.old.from walk.new }
    ensures past { result ≡ false → IsPast tables.now.yard list.now block most walk.old.from walk.new }
{
    let codes = tables.codes();
    let stretch = codes.stretch(block, walk.from);
    if cost_on(block_at(codes, block), stretch.place.end) > most {
        walk.from = past(tables, block, stretch, most);
        return false;
    }
    stand_at(tables, list, block, stretch, &mut walk.stand);
    let place = walk.from - stretch.lo;
    let columns = u32::from(walk.stand.lattice.columns);
    walk.row = (place / columns) as u16;
    walk.column = (place % columns) as u16;
    true
}

/// Whether the walk is within a stretch whose codes cost at most so much. It enters the next one where it is past the
/// last; where that one costs more, it goes past that too.
fn reaches(
    tables: &YardTables<'_>,
    list: &[Standing],
    block: u8,
    most: u32,
    walk: &mut Walk,
) -> bool
    requires list { All (IsStanding tables.now.yard) list.now }
    requires few { length list.now ≤ 32 }
    requires block { block < length tables.now.yard.blocks }
    requires more { walk.old.from < length (placements tables.now.yard block) }
    requires walk { IsWalk tables.now.yard list.now block most walk.old }
    ensures here { result ≡ true → IsHere tables.now.yard list.now block most walk.old.from walk.new }
    ensures past { result ≡ false → IsPast tables.now.yard list.now block most walk.old.from walk.new }
{
    if walk.from < walk.stand.stretch.hi {
        return true;
    }
    enter(tables, list, block, most, walk)
}

/// The next code of the stretch of the walk that clashes with nothing near it. Where there is none, the walk goes past the
/// stretch.
fn find(tables: &YardTables<'_>, block: u8, walk: &mut Walk) -> Option<u32>
    requires block { block < length tables.now.yard.blocks }
    requires ground { IsGround tables.now.yard block walk.old.stand }
    requires at { IsAt walk.old }
    requires within { walk.old.from < walk.old.stand.stretch.hi }
    ensures stand { walk.new.stand ≡ walk.old.stand }
    ensures none { IfNone result (HasNone (IsFreeBeside tables.now.yard walk.old.stand.near.items block) walk.old.from walk.old.stand.stretch.hi) }
    ensures past { IfNone result (walk.new.from ≡ walk.old.stand.stretch.hi) }
    ensures some { IfSome result (λ c. IsFirst (IsFreeBeside tables.now.yard walk.old.stand.near.items block) walk.old.from walk.old.stand.stretch.hi (Some c)) }
    ensures at { IfSome result (λ c. (walk.new.from ≡ c + 1) × IsAt walk.new) }
{
    let codes = tables.codes();
    codes.limits();
    let _count = codes.count(block);
    let stand = &walk.stand;
    let moving = block * 4 + stand.stretch.place.turn;
    let at = (walk.row, walk.column);
    let found = first_clear(
        tables,
        stand.near.as_slice(),
        moving,
        stand.lattice,
        at,
        &mut walk.forbidden,
    );
    let Some((row, column)) = found else {
        walk.from = stand.stretch.hi;
        return None;
    };
    let columns = u32::from(stand.lattice.columns);
    let code = stand.stretch.lo + (u32::from(row) * columns + u32::from(column));
    walk.row = row;
    walk.column = column + 1;
    walk.from = code + 1;
    Some(code)
}

/// The next free code of the stretch of the walk that costs at most so much. Where there is none, the walk goes past the
/// stretch.
fn step(
    tables: &YardTables<'_>,
    list: &[Standing],
    block: u8,
    most: u32,
    walk: &mut Walk,
) -> Option<u32>
    requires list { All (IsStanding tables.now.yard) list.now }
    requires few { length list.now ≤ 32 }
    requires block { block < length tables.now.yard.blocks }
    requires more { walk.old.from < length (placements tables.now.yard block) }
    requires walk { IsWalk tables.now.yard list.now block most walk.old }
    ensures none { IfNone result (IsPast tables.now.yard list.now block most walk.old.from walk.new) }
    ensures some { IfSome result (λ c. IsFound tables.now.yard list.now block most walk.old.from c walk.new) }
{
    if !reaches(tables, list, block, most, walk) {
        return None;
    }
    find(tables, block, walk)
}

/// The next free code of the walk that costs at most so much. None where there is none; the walk is then past all codes.
pub(crate) fn next_code(
    tables: &YardTables<'_>,
    list: &[Standing],
    block: u8,
    most: u32,
    walk: &mut Walk,
) -> Option<u32>
    requires list { All (IsStanding tables.now.yard) list.now }
    requires few { length list.now ≤ 32 }
    requires block { block < length tables.now.yard.blocks }
    requires from { walk.old.from ≤ length (placements tables.now.yard block) }
    requires walk { IsWalk tables.now.yard list.now block most walk.old }
    ensures next { IsFirst (IsCheap tables.now.yard list.now block most) walk.old.from (length (placements tables.now.yard block)) result }
    ensures walk { IsWalk tables.now.yard list.now block most walk.new }
    ensures from { IfSome result (λ c. walk.new.from ≡ c + 1) }
    ensures end { IfNone result (walk.new.from ≡ length (placements tables.now.yard block)) }
{
    let count = tables.codes().count(block);
    while walk.from < count {
        let found = step(tables, list, block, most, walk);
        if found.is_some() {
            return found;
        }
    }
    None
}

//! What a code of a block comes to beside blocks that stand.
ghost use Rattle.std.specs.Prelude.{◌<◌, All, MatchOption, length, Some};
ghost use Rattle.tardiness_bounds.specs.Standings.{ClashesAt, IsStanding};
ghost use Rattle.tardiness_bounds.specs.Besides.{ClashesBeside, IsHinderedAt};

use crate::clear::meets_some;
use crate::left::clashes;
use crate::standing::Standing;
use crate::tables::YardTables;
use code_table::Placement;

/// What hinders a code of a block: a clash with the literal on this other block, or a piece that it meets.
#[derive(Clone, Copy)]
pub enum Hindrance {
    Clash(u8),
    Piece,
}

/// A code of a block beside literals: what it costs, and what hinders it.
#[derive(Clone, Copy)]
pub struct Beside {
    pub cost: u32,
    pub hindrance: Option<Hindrance>,
}

/// A block that stands and clashes with another block at a placement: the first of those that are asked for, or else the
/// first of all. None where none clashes.
fn clashing(
    tables: &YardTables<'_>,
    list: &[Standing],
    block: u8,
    place: Placement,
    asked: &[bool; 32],
) -> Option<u8>
    requires list { All (IsStanding tables.now.yard) list.now }
    requires block { block < length tables.now.yard.blocks }
    requires turn { place.turn < 4 }
    ensures { MatchOption result (All (λ f. ClashesAt tables.now.yard f block place → ⊥) list.now)
        (ClashesBeside tables.now.yard list.now block place) }
{
    tables.codes().limits();
    let mut found = None;
    for f in list {
        if clashes(tables, *f, block, place) {
            if asked[f.block as usize] {
                return Some(f.block);
            }
            if found.is_none() {
                found = Some(f.block);
            }
        }
    }
    found
}

/// What hinders a block at a placement, if anything does.
pub(crate) fn what_hinders(
    tables: &YardTables<'_>,
    list: &[Standing],
    block: u8,
    place: Placement,
    asked: &[bool; 32],
) -> Option<Hindrance>
    requires list { All (IsStanding tables.now.yard) list.now }
    requires block { block < length tables.now.yard.blocks }
    requires turn { place.turn < 4 }
    ensures { IsHinderedAt tables.now.yard list.now block place result }
{
    if let Some(other) = clashing(tables, list, block, place, asked) {
        return Some(Hindrance::Clash(other));
    }
    if meets_some(tables, block, place) {
        return Some(Hindrance::Piece);
    }
    None
}

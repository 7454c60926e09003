//! The codes of a block that share a start, a plate and a turn.
ghost use Rattle.std.specs.Prelude.{◌≡◌, ◌<◌, ◌≤◌, All, length};
ghost use Rattle.code_table.specs.Placements.{placements};
ghost use Rattle.code_table.specs.Stretches.{HasEach, IsStretch};
ghost use Rattle.tardiness_bounds.specs.Stands.{IsStand};
ghost use Rattle.tardiness_bounds.specs.Standings.{IsStanding};

use crate::lattice::Lattice;
use crate::near::{Neighbours, near_to};
use crate::standing::{NOWHERE, Standing};
use crate::tables::YardTables;
use arrayvec::ArrayVec;
use code_table::Stretch;

/// A stretch of codes, the rows and the columns of its positions, and what stands near it.
#[derive(Drop)]
pub(crate) struct Stand {
    pub stretch: Stretch,
    pub lattice: Lattice,
    pub near: Neighbours,
}

/// A stand without codes.
pub(crate) fn no_stand() -> Stand
    ensures { result.stretch.hi ≡ 0 }
{
    Stand {
        stretch: Stretch {
            lo: 0,
            hi: 0,
            place: NOWHERE,
            columns: 1,
            pitch: 1,
        },
        lattice: Lattice {
            pitch: 1,
            rows: 0,
            columns: 0,
        },
        near: ArrayVec::new(),
    }
}

/// Makes a stand that of a stretch of a block, beside blocks that stand.
pub(crate) fn stand_at(
    tables: &YardTables<'_>,
    list: &[Standing],
    block: u8,
    stretch: Stretch,
    stand: &mut Stand,
)
    requires list { All (IsStanding tables.now.yard) list.now }
    requires few { length list.now ≤ 32 }
    requires block { block < length tables.now.yard.blocks }
    requires stretch { IsStretch (placements tables.now.yard block) stretch }
    requires each { HasEach (placements tables.now.yard block) stretch }
    requires some { stretch.lo < stretch.hi }
    ensures stretch { stand.new.stretch ≡ stretch }
    ensures stand { IsStand tables.now.yard list.now block stand.new }
{
    tables.codes().limits();
    stand.stretch = stretch;
    stand.lattice = tables.lattice(stretch.place.plate, block * 4 + stretch.place.turn);
    near_to(tables, list, stretch.place, &mut stand.near);
}

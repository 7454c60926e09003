//! What is made once of a yard to find free tables.
ghost use Rattle.std.specs.Prelude.{◌≡◌, ◌<◌, ◌≤◌, pos, ◌-ℤ◌, Some, [], length, slice_get, IfOk, IfSome};
ghost use Rattle.shape_exact.specs.declared.block.Block.{Block};
ghost use Rattle.code_table.specs.Placements.{placements};
ghost use Rattle.tardiness_bounds.specs.Footprints.{footprint_count, pair_at, turned_count};
ghost use Rattle.tardiness_bounds.specs.Lattices.{IsLatticeAt};
ghost use Rattle.tardiness_bounds.specs.Lefts.{IsLeft};
ghost use Rattle.tardiness_bounds.specs.Rows.{IsRowOf};
ghost use Rattle.tardiness_bounds.specs.Tables.{AreAllSlots, AreAllStretches};
ghost use Rattle.tardiness_bounds.specs.Slots.{AreSlots};

use crate::lattice::{Lattice, Lattices};
use crate::left::{Left, first_lefts};
use crate::obstacles::Obstacles;
use crate::rows::{Rows, row_place, way};
use crate::scratch::Scratch;
use crate::slot::{Slot, slots_of};
use crate::stretches::{StretchList, place_at, stretches_of};
use code_table::{Codes, Placement};
use minkowski_obstacles::Obstacle;
use shape_exact::NoMemory;
use std::alloc::Global;
use std::marker::Model;

/// The slots of a block, the cheapest first.
#[derive(Drop)]
pub(crate) struct SlotList {
    pub list: Vec<Slot>,
}

/// What is made once of a yard and lent to any number of frontiers: the slots of each block, the lattice of each plate
/// for each turned footprint of a block, the obstacles between these and the footprints that may stand, the rows of the
/// obstacles, and what is left to each block where none stands. Contracts see it as the yard and the lists of slots.
#[derive(Drop)]
pub struct YardTables<'a> {
    codes: &'a Codes,
    slots: Vec<SlotList>,
    stretches: Vec<StretchList>,
    lattices: Lattices,
    obstacles: Obstacles,
    rows: Rows,
    lefts: Vec<Left>,
}

impl<'a> Model for YardTables<'a> {
    ghost use Rattle.tardiness_bounds.specs.KeptTables.{AreTables};
    ghost use Rattle.tardiness_bounds.specs.Tables.{PlainTables, lists_of};

    ghost Value = { PlainTables };

    ghost view = { λ s. record { yard = s.codes.now; slots = lists_of s.slots.items } };

    ghost invariant = { λ s. AreTables s.codes.now s.slots.items s.stretches.items s.lattices.list.items s.obstacles.list.items s.rows.reach s.rows.list.items s.lefts.items };
}

/// The slots of each block, by block.
fn all_slots(alloc: Global, codes: &Codes) -> Result<Vec<SlotList>, NoMemory>
    ensures { IfOk result (λ slots. AreAllSlots codes.now slots.items) }
{
    let blocks = codes.yard().blocks();
    let mut slots = Vec::with_capacity(alloc, blocks.len())?;
    for block in blocks {
        let list = slots_of(alloc, codes, block)?;
        slots.push(SlotList { list })?;
    }
    Ok(slots)
}

/// The stretches that are kept of each block.
fn all_stretches(alloc: Global, codes: &Codes) -> Result<Vec<StretchList>, NoMemory>
    ensures { IfOk result (λ stretches. AreAllStretches codes.now stretches.items) }
{
    let blocks = codes.yard().blocks();
    let mut stretches = Vec::with_capacity(alloc, blocks.len())?;
    for block in 0..blocks.len() {
        stretches.push(stretches_of(alloc, codes, block as u8)?)?;
    }
    Ok(stretches)
}

impl<'a> YardTables<'a> {
    /// The slots, the lattices, the obstacles and their rows of a yard, and what is left to its blocks where none stands. They
    /// take about 800 bytes for each pair of turned footprints, at most 18 MB, 12 bytes for each row that is kept, at most
    /// 3 MB, 12 bytes for each start of a block on a plate, 6 bytes for each turned footprint of a block on a plate, and
    /// some 30 bytes for each block.
    pub fn new(alloc: Global, codes: &'a Codes) -> Result<YardTables<'a>, NoMemory>
        ensures { IfOk result (λ tables. tables.yard ≡ codes.now) }
    {
        codes.limits();
        let slots = all_slots(alloc, codes)?;
        let stretches = all_stretches(alloc, codes)?;
        let lattices = Lattices::new(alloc, codes)?;
        let obstacles = Obstacles::new(alloc, codes)?;
        let rows = Rows::new(alloc, codes, obstacles.list.as_slice())?;
        let mut tables = YardTables {
            codes,
            slots,
            stretches,
            lattices,
            obstacles,
            rows,
            lefts: Vec::new(alloc),
        };
        let mut scratch = Scratch::new();
        let count = codes.yard().blocks().len();
        tables.lefts = first_lefts(alloc, &tables, count, &mut scratch)?;
        Ok(tables)
    }

    /// The codes of the yard.
    pub fn codes(&self) -> &Codes
        ensures { result.now ≡ self.now.yard }
    {
        self.codes
    }

    /// The placement of a code of a block, by the stretch that is kept for it.
    pub(crate) fn place(&self, block: u8, code: u32) -> Placement
        requires block { block < length self.now.yard.blocks }
        requires code { code < length (placements self.now.yard block) }
        ensures value { slice_get (placements self.now.yard block) code ≡ Some result }
        ensures turn { result.turn < 4 }
        ensures x { result.x ≤ 400 }
        ensures y { result.y ≤ 400 }
    {
        let stretches = self.stretches.as_slice();
        place_at(self.codes, &stretches[block as usize], block, code)
    }

    /// The slots of a block, the cheapest first.
    pub(crate) fn slots(&self, block: u8) -> &[Slot]
        requires { block < length self.now.yard.blocks }
        ensures value { slice_get self.now.slots block ≡ Some result.now }
        ensures all { (b : Block) → slice_get self.now.yard.blocks block ≡ Some b → AreSlots self.now.yard b result.now }
    {
        let slots = self.slots.as_slice();
        slots[block as usize].list.as_slice()
    }

    /// What is left to a block where none stands. None while the tables are being made.
    pub(crate) fn first_left(&self, block: u8) -> Option<Left>
        ensures { IfSome result (IsLeft self.now [] block) }
    {
        let lefts = self.lefts.as_slice();
        if block as usize >= lefts.len() {
            return None;
        }
        Some(lefts[block as usize])
    }

    /// The lattice of a plate for a turned footprint of a block, by their numbers.
    pub(crate) fn lattice(&self, plate: u8, moving: u8) -> Lattice
        requires plate { plate < length self.now.yard.plates }
        requires moving { moving < turned_count self.now.yard }
        ensures { IsLatticeAt self.now.yard plate moving result }
    {
        let turned = self.codes().yard().blocks().len() * 4;
        let list = self.lattices.list.as_slice();
        list[plate as usize * turned + moving as usize]
    }

    /// The obstacle of a footprint that stands for a turned footprint of a block.
    pub(crate) fn obstacle(&self, standing: u8, moving: u8) -> &Obstacle
        requires standing { standing < footprint_count self.now.yard }
        requires moving { moving < turned_count self.now.yard }
        ensures { result.now ≡ pair_at self.now.yard standing moving }
    {
        let turned = self.codes().yard().blocks().len() * 4;
        let list = self.obstacles.list.as_slice();
        &list[standing as usize * turned + moving as usize]
    }

    /// A row of the obstacle of a footprint that stands for a turned footprint of a block, at the y of the block where the
    /// other stands at its own: the least and the greatest x, from the x of the other; None where the row is empty.
    pub(crate) fn row(&self, standing: u8, moving: u8, y: u16, at: u16) -> Option<(i32, i32)>
        requires standing { standing < footprint_count self.now.yard }
        requires moving { moving < turned_count self.now.yard }
        ensures { IsRowOf (pair_at self.now.yard standing moving) (pos y -ℤ pos at) result }
    {
        let reach = self.rows.reach;
        let Some(place) = row_place(reach, y, at) else {
            return self.obstacle(standing, moving).row(way(y, at));
        };
        let turned = self.codes().yard().blocks().len() * 4;
        let number = standing as usize * turned + moving as usize;
        let rows = self.rows.list.as_slice();
        rows[number * (reach as usize * 2 + 1) + place]
    }
}

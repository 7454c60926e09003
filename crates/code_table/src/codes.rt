//! The codes of a yard.
ghost use Rattle.std.specs.Prelude.{◌≡◌, ℕ, ◌≤◌, ◌<◌, length, IfOk, slice_get, Some, IfNone, IfSome};
ghost use Rattle.shape_exact.specs.Yards.{IsYard};
ghost use Rattle.shape_exact.specs.Shapes.{turned, cells};
ghost use Rattle.shape_exact.specs.declared.block.Block.{Block};
ghost use Rattle.shape_exact.specs.declared.plate.Plate.{Plate};
ghost use Rattle.plate_calendar.specs.Calendars.{open_days};
ghost use Rattle.code_table.specs.declared.placement.Placement.{Placement};
ghost use Rattle.code_table.specs.Codes.{IsCode};
ghost use Rattle.code_table.specs.Orders.{AreAscending, EndsAscend};
ghost use Rattle.code_table.specs.Costs.{IsAtMostEachCost, IsCostOfSome};
ghost use Rattle.code_table.specs.Placements.{placements, own_cost, IsPlacement};
ghost use Rattle.code_table.specs.Sizes.{CanBePlanned, most_placements};
ghost use Rattle.code_table.specs.Spots.{IsSpot};
ghost use Rattle.code_table.specs.Stretches.{HasEach, IsStretch, nth_place};
ghost use Rattle.code_table.specs.Tables.{IsTable};

use crate::code::code_of;
use crate::cost::cost_on;
use crate::placement::Placement;
use crate::spot::{Spot, place_at, spot_of};
use crate::stand::calendars_of;
use crate::stretch::{Stretch, stretch_of};
use crate::table::{Table, tables_of};
use arrayvec::ArrayVec;
use plate_calendar::Calendar;
use shape_exact::{NoMemory, Shape, Yard};
use std::alloc::{AllocError, Global};
use std::marker::Model;

/// The codes of a yard's blocks. Contracts see it as its yard.
#[derive(Drop)]
pub struct Codes {
    pub(crate) yard: Yard,
    pub(crate) calendars: ArrayVec<Calendar, 8>,
    pub(crate) tables: Vec<Table>,
}

impl Model for Codes {
    ghost use Rattle.shape_exact.specs.Yards.{PlainYard};

    ghost Value = { PlainYard };

    ghost view = { λ s. s.yard };

    ghost use Rattle.code_table.specs.Tables.{IsCoded};

    ghost invariant = { λ s. IsCoded s.yard s.calendars.items s.tables.items };
}

/// A copy of a yard.
fn copy_of(yard: &Yard) -> Result<Yard, AllocError>
    ensures { IfOk result (λ y. y ≡ yard.now) }
{
    yard.clone()
}

impl Codes {
    /// The codes of the yard's blocks. The yard is copied. [`crate::can_be_planned`] says whether there are any.
    pub fn new(alloc: Global, yard: &Yard) -> Result<Codes, NoMemory>
        requires { CanBePlanned yard.now }
        ensures { IfOk result (λ c. c ≡ yard.now) }
    {
        let calendars = calendars_of(yard);
        let tables = tables_of(alloc, yard, calendars.as_slice())?;
        let yard = copy_of(yard)?;
        Ok(Codes {
            yard,
            calendars,
            tables,
        })
    }

    /// The yard whose codes these are.
    pub fn yard(&self) -> &Yard
        ensures value { result.now ≡ self.now }
        ensures limits { IsYard self.now }
        ensures plates { 1 ≤ length self.now.plates }
        ensures blocks { 1 ≤ length self.now.blocks }
        ensures few { (b : ℕ) → length (placements self.now b) ≤ most_placements }
    {
        &self.yard
    }

    /// The limits of the yard. It does nothing: a caller that calls it may cite them.
    pub fn limits(&self)
        ensures limits { IsYard self.now }
        ensures plates { 1 ≤ length self.now.plates }
        ensures blocks { 1 ≤ length self.now.blocks }
        ensures few { (b : ℕ) → length (placements self.now b) ≤ most_placements }
    {
        let _yard = &self.yard;
    }

    /// The table of a block.
    fn table(&self, block: u8) -> &Table
        requires { block < length self.now.blocks }
        ensures is { (b : Block) → slice_get self.now.blocks block ≡ Some b → IsTable self.now b result.now }
        ensures limits { IsYard self.now }
    {
        let tables = self.tables.as_slice();
        &tables[block as usize]
    }

    /// The calendar of a plate.
    pub fn calendar(&self, plate: u8) -> &Calendar
        requires { plate < length self.now.plates }
        ensures { (p : Plate) → slice_get self.now.plates plate ≡ Some p → result.now ≡ open_days self.now.days p.closed }
    {
        let calendars = self.calendars.as_slice();
        &calendars[plate as usize]
    }

    /// The shape of a block in a turn.
    pub fn shape(&self, block: u8, turn: u8) -> &Shape
        requires block { block < length self.now.blocks }
        requires turn { turn < 4 }
        ensures { (b : Block) → slice_get self.now.blocks block ≡ Some b → result.now ≡ turned turn b.shape }
    {
        let shapes = self.table(block).shapes.as_slice();
        &shapes[turn as usize]
    }

    /// The number of unit cells of a block's shape.
    pub fn cells(&self, block: u8) -> u32
        requires { block < length self.now.blocks }
        ensures { (b : Block) → slice_get self.now.blocks block ≡ Some b → result ≡ cells b.shape }
    {
        self.table(block).cells
    }

    /// The number of codes of a block.
    pub fn count(&self, block: u8) -> u32
        requires { block < length self.now.blocks }
        ensures value { result ≡ length (placements self.now block) }
        ensures few { result ≤ most_placements }
    {
        self.table(block).count
    }

    /// Where a code stands.
    fn spot(&self, block: u8, code: u32) -> Spot
        requires block { block < length self.now.blocks }
        requires code { code < length (placements self.now block) }
        ensures { (b : Block) → slice_get self.now.blocks block ≡ Some b → IsSpot self.now b code result }
    {
        let sums = self.table(block).sums.as_slice();
        let blocks = self.yard.blocks();
        let block = &blocks[block as usize];
        spot_of(&self.yard, self.calendars.as_slice(), block, sums, code)
    }

    /// The placement of a code.
    pub fn place(&self, block: u8, code: u32) -> Placement
        requires block { block < length self.now.blocks }
        requires code { code < length (placements self.now block) }
        ensures value { slice_get (placements self.now block) code ≡ Some result }
        ensures placement { (b : Block) → slice_get self.now.blocks block ≡ Some b → IsPlacement self.now b result }
        ensures plate { result.plate < length self.now.plates }
        ensures turn { result.turn < 4 }
        ensures start { result.start < self.now.days }
        ensures end { result.end < self.now.days }
        ensures order { result.start ≤ result.end }
        ensures x { result.x ≤ 400 }
        ensures y { result.y ≤ 400 }
    {
        let spot = self.spot(block, code);
        let plates = self.yard().plates();
        let plate = &plates[spot.plate as usize];
        place_at(plate, self.shape(block, spot.turn), spot)
    }

    /// The codes that share their start, their plate and their turn with a code of the block, and so their end and their
    /// own cost.
    pub fn stretch(&self, block: u8, code: u32) -> Stretch
        requires block { block < length self.now.blocks }
        requires code { code < length (placements self.now block) }
        ensures stretch { IsStretch (placements self.now block) result }
        ensures each { HasEach (placements self.now block) result }
        ensures from { result.lo ≤ code }
        ensures to { code < result.hi }
        ensures end { result.place.end < self.now.days }
    {
        let yard = self.yard();
        let table = self.table(block);
        let blocks = yard.blocks();
        let block = &blocks[block as usize];
        stretch_of(yard, self.calendars.as_slice(), block, table, code)
    }

    /// The placement of a code of a stretch, as `place` gives it, without a search.
    pub fn place_in(&self, block: u8, stretch: Stretch, code: u32) -> Placement
        requires block { block < length self.now.blocks }
        requires stretch { IsStretch (placements self.now block) stretch }
        requires from { stretch.lo ≤ code }
        requires to { code < stretch.hi }
        ensures value { slice_get (placements self.now block) code ≡ Some result }
        ensures place { result ≡ nth_place stretch code }
        ensures turn { result.turn < 4 }
        ensures x { result.x ≤ 400 }
        ensures y { result.y ≤ 400 }
    {
        self.limits();
        stretch.nth(code)
    }

    /// The code of a placement. None where it is no placement of the block.
    pub fn code(&self, block: u8, placement: &Placement) -> Option<u32>
        requires { block < length self.now.blocks }
        ensures value { IsCode (placements self.now block) placement.now result }
        ensures within { IfSome result (λ c. c < length (placements self.now block)) }
    {
        let table = self.table(block);
        let yard = self.yard();
        let blocks = yard.blocks();
        let block = &blocks[block as usize];
        code_of(yard, self.calendars.as_slice(), block, table, placement)
    }

    /// A law: the codes of a block ascend by start, then plate, then turn, then y, then x, and on one plate a later code
    /// ends no earlier.
    pub fn codes_ascend(&self, block: u8)
        requires { block < length self.now.blocks }
        ensures order { AreAscending (placements self.now block) }
        ensures ends { EndsAscend (placements self.now block) }
    {
        self.limits();
    }

    /// A law: each placement of a block, by the rule, has a code.
    pub fn placements_have_codes(&self, block: u8)
        requires { block < length self.now.blocks }
        ensures { (b : Block) (p : Placement) → slice_get self.now.blocks block ≡ Some b
            → IsPlacement self.now b p → (code : ℕ) × (slice_get (placements self.now block) code ≡ Some p) }
    {
        self.limits();
    }

    /// What a code costs: the weight for each day from the due day to its end, or the early cost for each day from its end
    /// to the due day.
    pub fn own_cost(&self, block: u8, code: u32) -> u32
        requires block { block < length self.now.blocks }
        requires code { code < length (placements self.now block) }
        ensures value { result ≡ own_cost self.now block code }
        ensures few { result ≤ 400000 }
    {
        let end = self.spot(block, code).end;
        let blocks = self.yard().blocks();
        let block = &blocks[block as usize];
        cost_on(block, end)
    }

    /// The least cost of a block's codes. None where it has no code.
    pub fn least_cost(&self, block: u8) -> Option<u32>
        requires { block < length self.now.blocks }
        ensures none { IfNone result (length (placements self.now block) ≡ 0) }
        ensures least { IfSome result (IsAtMostEachCost self.now block) }
        ensures attained { IfSome result (IsCostOfSome self.now block) }
        ensures few { IfSome result (λ c. c ≤ 400000) }
    {
        self.table(block).least
    }
}

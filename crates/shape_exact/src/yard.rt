//! The plain yard.
ghost use Rattle.std.specs.Prelude.{◌≡◌, ◌≤◌, [], ◌∷◌, ◌++◌};
ghost use Rattle.shape_exact.specs.Yards.{CanAddPlate, CanAddBlock, CanAddFixed, IsYard};

use crate::{Block, Fixed, Plate};
use arrayvec::ArrayVec;
use std::marker::Model;

/// A yard: its days, at most 8 plates and at most 32 blocks, each within the limits, no two plates and no two blocks
/// of one name, and at most 48 fixed pieces, each inside its plate, and no two of them on the same ground on one day.
#[derive(Clone, Drop)]
pub struct Yard {
    days: u16,
    plates: ArrayVec<Plate, 8>,
    blocks: ArrayVec<Block, 32>,
    fixed: ArrayVec<Fixed, 48>,
}

impl Model for Yard {
    ghost use Rattle.shape_exact.specs.Yards.{PlainYard, IsYard};

    ghost Value = { PlainYard };

    ghost view = { λ y. record { days = y.days; plates = y.plates.items; blocks = y.blocks.items; fixed = y.fixed.items } };

    ghost invariant = { λ y. IsYard (record { days = y.days; plates = y.plates.items; blocks = y.blocks.items; fixed = y.fixed.items }) };
}

impl Yard {
    /// A yard of so many days, numbered from 0, with no plate, no block and no piece.
    pub fn start(days: u16) -> Yard
        requires { (1 ≤ days) × (days ≤ 400) }
        ensures { result ≡ record { days = days; plates = []; blocks = []; fixed = [] } }
    {
        Yard {
            days,
            plates: ArrayVec::new(),
            blocks: ArrayVec::new(),
            fixed: ArrayVec::new(),
        }
    }

    /// Adds a plate after the others.
    pub fn add_plate(&mut self, plate: Plate)
        requires { CanAddPlate self.old plate }
        ensures plates { self.new.plates ≡ self.old.plates ++ plate ∷ [] }
        ensures blocks { self.new.blocks ≡ self.old.blocks }
        ensures fixed { self.new.fixed ≡ self.old.fixed }
        ensures days { self.new.days ≡ self.old.days }
    {
        self.plates.push(plate);
    }

    /// Adds a block after the others.
    pub fn add_block(&mut self, block: Block)
        requires { CanAddBlock self.old block }
        ensures blocks { self.new.blocks ≡ self.old.blocks ++ block ∷ [] }
        ensures plates { self.new.plates ≡ self.old.plates }
        ensures fixed { self.new.fixed ≡ self.old.fixed }
        ensures days { self.new.days ≡ self.old.days }
    {
        self.blocks.push(block);
    }

    /// Adds a fixed piece after the others.
    pub fn add_fixed(&mut self, piece: Fixed)
        requires { CanAddFixed self.old piece }
        ensures fixed { self.new.fixed ≡ self.old.fixed ++ piece ∷ [] }
        ensures plates { self.new.plates ≡ self.old.plates }
        ensures blocks { self.new.blocks ≡ self.old.blocks }
        ensures days { self.new.days ≡ self.old.days }
    {
        self.fixed.push(piece);
    }

    /// The number of days.
    pub fn days(&self) -> u16
        ensures value { result ≡ self.now.days }
        ensures limits { IsYard self.now }
    {
        self.days
    }

    /// The plates, in file order.
    pub fn plates(&self) -> &[Plate]
        ensures value { result.now ≡ self.now.plates }
        ensures limits { IsYard self.now }
    {
        self.plates.as_slice()
    }

    /// The blocks, in file order.
    pub fn blocks(&self) -> &[Block]
        ensures value { result.now ≡ self.now.blocks }
        ensures limits { IsYard self.now }
    {
        self.blocks.as_slice()
    }

    /// The fixed pieces, in the order in which they were added.
    pub fn fixed(&self) -> &[Fixed]
        ensures value { result.now ≡ self.now.fixed }
        ensures limits { IsYard self.now }
    {
        self.fixed.as_slice()
    }
}

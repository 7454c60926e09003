//! A box with the placements of its exact codes, gathered once.
ghost use Rattle.std.specs.Prelude.{◌≡◌, ◌<◌, Some, length, slice_get};
ghost use Rattle.plan_rule.specs.Boxes.{IsBox};
ghost use Rattle.plan_rule.specs.Choices.{blocks};
ghost use Rattle.plan_rule.specs.Yards.{choices};
ghost use Rattle.tardiness_bounds.specs.Sides.{AreExactPlaces, IsExactPlace};

use arrayvec::ArrayVec;
use code_table::{Codes, Placement};
use plan_rule::{PlanBox, block_count};
use std::marker::Model;

/// A box, and for each block the placement of its exact code, None where it has none. Contracts see it as the literals
/// and the placements.
#[derive(Drop)]
pub(crate) struct Side<'a> {
    part: &'a PlanBox,
    places: ArrayVec<Option<Placement>, 32>,
}

impl<'a> Model for Side<'a> {
    ghost use Rattle.tardiness_bounds.specs.Sides.{PlainSide};

    ghost Value = { PlainSide };

    ghost view = { λ s. record { literals = s.part.now; places = s.places.items } };
}

/// The placement of the code to which a box sets a block. None where it sets it to none.
fn exact_place(codes: &Codes, part: &PlanBox, block: u8) -> Option<Placement>
    requires part { IsBox (choices codes.now) part.now }
    requires block { block < blocks (choices codes.now) }
    ensures { IsExactPlace codes.now part.now block result }
{
    match part.exact_code(block) {
        Some(code) => Some(codes.place(block, code)),
        None => None,
    }
}

impl<'a> Side<'a> {
    /// The box with the placements of its exact codes.
    pub(crate) fn of(codes: &Codes, part: &'a PlanBox) -> Side<'a>
        requires { IsBox (choices codes.now) part.now }
        ensures literals { result.literals ≡ part.now }
        ensures places { AreExactPlaces codes.now result }
    {
        codes.limits();
        let mut places = ArrayVec::new();
        for block in 0..block_count(codes) {
            places.push(exact_place(codes, part, block));
        }
        Side { part, places }
    }

    /// The placement of the exact code of a block. None where it has none.
    pub(crate) fn place(&self, block: u8) -> Option<Placement>
        requires { block < length self.now.places }
        ensures { slice_get self.now.places block ≡ Some result }
    {
        let places = self.places.as_slice();
        places[block as usize]
    }
}

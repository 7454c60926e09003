//! The box of a region's prefix.
ghost use Rattle.std.specs.Prelude.{◌≤◌, length, IfOk};
ghost use Rattle.plan_rule.specs.Yards.{choices};
ghost use Rattle.branch_kernel.specs.Known.{AreKnown};
ghost use Rattle.branch_kernel.specs.Boxes.{IsFront};
ghost use Rattle.branch_core.specs.Fronts.{AreCodesOf, IsFrontOf};

use branch_kernel::{clashing, with};
use code_table::Codes;
use plan_rule::{Literal, PlanBox, meets};
use shape_exact::NoMemory;
use std::alloc::Global;

/// The first code of a prefix that no feasible plan has beside the codes before it: its block, the earlier block with
/// whose code it clashes, or None where it meets a piece, and the box of the codes before it.
#[derive(Drop)]
pub struct Misfit {
    pub place: u8,
    pub other: Option<u8>,
    pub side: PlanBox,
}

/// A prefix of a region: the box that fixes its blocks, or its first misfit.
#[derive(Drop)]
pub enum Front {
    Clear(PlanBox),
    Refused(Misfit),
}

/// The box of a prefix, or its first misfit.
pub(crate) fn front_of(alloc: Global, codes: &Codes, front: &[u32]) -> Result<Front, NoMemory>
    requires known { AreKnown (choices codes.now) }
    requires exist { AreCodesOf (choices codes.now) front.now }
    ensures { IfOk result (IsFrontOf (choices codes.now) front.now) }
{
    let mut side = PlanBox::new(alloc, &[])?;
    for index in 0..front.len() {
        let place = index as u8;
        let code = front[index];
        if let Some(block) = clashing(codes, &side, place, code) {
            let other = Some(block);
            return Ok(Front::Refused(Misfit { place, other, side }));
        }
        if let Some(_piece) = meets(codes, place, code) {
            let other = None;
            return Ok(Front::Refused(Misfit { place, other, side }));
        }
        side = with(alloc, &side, Literal::exact(place, code))?;
    }
    Ok(Front::Clear(side))
}

/// The box that fixes the first blocks of a prefix.
pub(crate) fn front_side(
    alloc: Global,
    codes: &Codes,
    front: &[u32],
    upto: usize,
) -> Result<PlanBox, NoMemory>
    requires upto { upto ≤ length front.now }
    requires known { AreKnown (choices codes.now) }
    requires exist { AreCodesOf (choices codes.now) front.now }
    ensures { IfOk result (λ box. IsFront (choices codes.now) front.now upto box) }
{
    let mut side = PlanBox::new(alloc, &[])?;
    for block in 0..upto {
        side = with(alloc, &side, Literal::exact(block as u8, front[block]))?;
    }
    Ok(side)
}

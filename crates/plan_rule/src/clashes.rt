//! Clashes.
ghost use Rattle.std.specs.Prelude.{◌≡◌, ◌≢◌, ◌↔◌, ◌<◌, ◌≤◌, IsTrue, MatchOption};
ghost use Rattle.shape_exact.specs.Separation.{IsWithin};
ghost use Rattle.plan_rule.specs.Choices.{IsCode, blocks};
ghost use Rattle.plan_rule.specs.Clashes.{MayClash, place_of};
ghost use Rattle.plan_rule.specs.Plans.{IsPlan, HasNoClash};
ghost use Rattle.plan_rule.specs.Pairs.{IsFirstAfter, IsFirstPair, ClashesAfter};
ghost use Rattle.plan_rule.specs.Yards.{choices};

use crate::{Plan, block_count};
use code_table::{Codes, Placement};
use shape_exact::{Point, apart};

/// The point, in plate units, to which a placement shifts its footprint.
pub fn corner(placement: Placement) -> Point
    requires { (placement.x ≤ 10000) × (placement.y ≤ 10000) }
    ensures value { result ≡ place_of placement }
    ensures within { IsWithin 10000 result }
{
    Point {
        x: i32::from(placement.x),
        y: i32::from(placement.y),
    }
}

/// Whether two placements are on one plate and their spans share a day. Where they are not, no two blocks clash there.
pub fn may_clash(one: Placement, two: Placement) -> bool
    ensures { IsTrue result ↔ MayClash one two }
{
    one.plate == two.plate && one.start <= two.end && two.start <= one.end
}

/// Whether the placements of two blocks' codes clash: they stand on one plate, their spans share a day, and some point
/// lies strictly inside both footprints. Footprints that only touch do not clash.
pub fn clash(codes: &Codes, a: u8, code_a: u32, b: u8, code_b: u32) -> bool
    requires differ { a ≢ b }
    requires first { IsCode (choices codes.now) a code_a }
    requires second { IsCode (choices codes.now) b code_b }
    ensures { IsTrue result ↔ (choices codes.now).Clash a code_a b code_b }
{
    let one = codes.place(a, code_a);
    let two = codes.place(b, code_b);
    if !may_clash(one, two) {
        return false;
    }
    let first = codes.shape(a, one.turn);
    let second = codes.shape(b, two.turn);
    !apart(first, corner(one), second, corner(two))
}

/// The first block after this one whose code in the plan clashes with this one's; None where there is none.
fn first_after(codes: &Codes, plan: &Plan, block: u8) -> Option<u8>
    requires plan { IsPlan (choices codes.now) plan.now }
    requires block { block < blocks (choices codes.now) }
    ensures { MatchOption result (ClashesAfter (choices codes.now) plan.now block → ⊥)
        (λ other. IsFirstAfter (choices codes.now) plan.now block other) }
{
    let list = plan.codes();
    let end = block_count(codes);
    for other in block + 1..end {
        if clash(
            codes,
            block,
            list[block as usize],
            other,
            list[other as usize],
        ) {
            return Some(other);
        }
    }
    None
}

/// The first pair of blocks i < j, by i and then by j, whose codes in the plan clash; None exactly where no two do.
pub fn first_clash(codes: &Codes, plan: &Plan) -> Option<(u8, u8)>
    requires { IsPlan (choices codes.now) plan.now }
    ensures { MatchOption result (HasNoClash (choices codes.now) plan.now)
        (λ pair. IsFirstPair (choices codes.now) plan.now pair.0 pair.1) }
{
    for block in 0..block_count(codes) {
        if let Some(other) = first_after(codes, plan, block) {
            return Some((block, other));
        }
    }
    None
}

//! Meetings with fixed pieces.
ghost use Rattle.std.specs.Prelude.{◌↔◌, ◌<◌, ◌≤◌, ◌≡◌, ℕ, IsTrue, MatchOption, Some, length, slice_get};
ghost use Rattle.shape_exact.specs.Yards.{IsPiece, piece_at};
ghost use Rattle.shape_exact.specs.Separation.{IsWithin};
ghost use Rattle.shape_exact.specs.declared.block.Block.{Block};
ghost use Rattle.plan_rule.specs.Choices.{IsCode, MeetsSome, blocks};
ghost use Rattle.plan_rule.specs.Clashes.{MayMeetPiece, MeetPiece};
ghost use Rattle.plan_rule.specs.Pieces.{IsFirstMet, IsFirstMeeting};
ghost use Rattle.plan_rule.specs.Plans.{IsPlan, MeetsNone};
ghost use Rattle.plan_rule.specs.Yards.{choices};

use crate::clashes::corner;
use crate::{Plan, block_count};
use code_table::{Codes, Placement};
use shape_exact::{Fixed, Point, apart};

/// The point, in plate units, to which a piece's footprint is shifted.
fn place_of_piece(piece: &Fixed) -> Point
    requires { (piece.now.x ≤ 400) × (piece.now.y ≤ 400) }
    ensures value { result ≡ piece_at piece.now }
    ensures within { IsWithin 10000 result }
{
    Point {
        x: i32::from(piece.x),
        y: i32::from(piece.y),
    }
}

/// Whether a placement is on a piece's plate and its span shares a day with the piece's days. Where it is not, no block
/// meets the piece there.
pub fn may_meet_piece(placement: Placement, piece: &Fixed) -> bool
    ensures { IsTrue result ↔ MayMeetPiece placement piece.now }
{
    placement.plate == piece.plate && placement.start <= piece.to && piece.from <= placement.end
}

/// Whether a block at a placement of it meets a piece: it is on the piece's plate, its span and the piece's days share a
/// day, and some point lies strictly inside both footprints.
pub fn meets_piece(codes: &Codes, block: u8, placement: Placement, piece: &Fixed) -> bool
    requires block { block < length codes.now.blocks }
    requires place { (placement.turn < 4) × (placement.x ≤ 400) × (placement.y ≤ 400) }
    requires piece { (piece.now.x ≤ 400) × (piece.now.y ≤ 400) }
    ensures { (b : Block) → slice_get codes.now.blocks block ≡ Some b → IsTrue result ↔ MeetPiece b placement piece.now }
{
    if !may_meet_piece(placement, piece) {
        return false;
    }
    let shape = codes.shape(block, placement.turn);
    !apart(
        shape,
        corner(placement),
        &piece.shape,
        place_of_piece(piece),
    )
}

/// The first fixed piece that a block meets at a code: on one plate, on a day of both, with a point strictly inside both
/// footprints. None exactly where it meets none.
pub fn meets(codes: &Codes, block: u8, code: u32) -> Option<u8>
    requires { IsCode (choices codes.now) block code }
    ensures { MatchOption result (MeetsSome (choices codes.now) block code → ⊥)
        (λ piece. IsFirstMet (choices codes.now) block code piece) }
{
    let placement = codes.place(block, code);
    for (i, piece) in codes.yard().fixed().iter().enumerate() {
        if meets_piece(codes, block, placement, piece) {
            return Some(i as u8);
        }
    }
    None
}

/// The first block, and then the first piece, such that the block's code in the plan meets the piece. None exactly where
/// no code of the plan meets a piece.
pub fn first_met(codes: &Codes, plan: &Plan) -> Option<(u8, u8)>
    requires { IsPlan (choices codes.now) plan.now }
    ensures { MatchOption result (MeetsNone (choices codes.now) plan.now)
        (λ pair. IsFirstMeeting (choices codes.now) plan.now pair.0 pair.1) }
{
    let list = plan.codes();
    for block in 0..block_count(codes) {
        if let Some(piece) = meets(codes, block, list[block as usize]) {
            return Some((block, piece));
        }
    }
    None
}

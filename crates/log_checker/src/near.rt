//! The fixed pieces near a placement: those on its plate on some of its days.
ghost use Rattle.std.specs.Prelude.{◌≡◌, ℕ, ◌<◌, ◌≤◌, ◌↔◌, ◌⊎◌, All, IsTrue, length};
ghost use Rattle.log_checker.specs.NearPieces.{AreNear, MeetsAt, MeetsOne};

use arrayvec::ArrayVec;
use code_table::{Codes, Placement};
use plan_rule::{may_meet_piece, meets_piece};

/// The pieces, by number, that are on the placement's plate on some of its days. No other is met there: a placement of the
/// same plate and days has the same near ones.
pub(crate) fn pieces_near(codes: &Codes, place: Placement) -> ArrayVec<u8, 48>
    ensures { AreNear codes.now place result.items }
{
    let mut list = ArrayVec::new();
    for (i, piece) in codes.yard().fixed().iter().enumerate() {
        if may_meet_piece(place, piece) {
            list.push(i as u8);
        }
    }
    list
}

/// Whether a block at a placement meets the piece with this number.
fn meets_at(codes: &Codes, piece: u8, block: u8, place: Placement) -> bool
    requires piece { piece < length codes.now.fixed }
    requires block { block < length codes.now.blocks }
    requires turn { place.turn < 4 }
    requires x { place.x ≤ 400 }
    requires y { place.y ≤ 400 }
    ensures { IsTrue result ↔ MeetsAt codes.now block place piece }
{
    let pieces = codes.yard().fixed();
    let fixed = &pieces[piece as usize];
    meets_piece(codes, block, place, fixed)
}

/// Whether a block at a placement meets one of these pieces.
pub(crate) fn meets_one(codes: &Codes, pieces: &[u8], block: u8, place: Placement) -> bool
    requires pieces { All (λ i. i < length codes.now.fixed) pieces.now }
    requires block { block < length codes.now.blocks }
    requires turn { place.turn < 4 }
    requires x { place.x ≤ 400 }
    requires y { place.y ≤ 400 }
    ensures { IsTrue result ↔ MeetsOne codes.now pieces.now block place }
{
    for piece in pieces {
        if meets_at(codes, *piece, block, place) {
            return true;
        }
    }
    false
}

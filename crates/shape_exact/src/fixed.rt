//! Fixed pieces, and when one may be added to a yard.
ghost use Rattle.std.specs.Prelude.{◌≡◌, ◌≤◌, ◌<◌, ◌↔◌, IsTrue, All};
ghost use Rattle.shape_exact.specs.Separation.{IsWithin};
ghost use Rattle.shape_exact.specs.Yards.{CanAddFixed, IsPiece, IsYard, LiesWithin, StandApart, piece_at};

use crate::{Plate, Point, Shape, Yard, apart};

/// A piece that already stands: its plate, its footprint as it stands, the place to which that is shifted, and the first
/// and the last day on which it stands there.
#[derive(Clone, Default, Drop)]
pub struct Fixed {
    pub plate: u8,
    pub shape: Shape,
    pub x: u16,
    pub y: u16,
    pub from: u16,
    pub to: u16,
}

/// The point, in plate units, to which a piece's footprint is shifted.
fn place_of(piece: &Fixed) -> Point
    requires { (piece.now.x ≤ 400) × (piece.now.y ≤ 400) }
    ensures value { result ≡ piece_at piece.now }
    ensures within { IsWithin 10000 result }
{
    Point {
        x: i32::from(piece.x),
        y: i32::from(piece.y),
    }
}

/// Whether two pieces are on different plates, share no day, or are apart.
fn stand_apart(one: &Fixed, two: &Fixed) -> bool
    requires one { (one.now.x ≤ 400) × (one.now.y ≤ 400) }
    requires two { (two.now.x ≤ 400) × (two.now.y ≤ 400) }
    ensures { IsTrue result ↔ StandApart one.now two.now }
{
    if one.plate != two.plate || one.from > two.to || two.from > one.to {
        return true;
    }
    apart(&one.shape, place_of(one), &two.shape, place_of(two))
}

/// Whether a piece's days are in order and below the number of days, and it lies inside the plate.
fn lies_within(piece: &Fixed, plate: &Plate, days: u16) -> bool
    ensures { IsTrue result ↔ LiesWithin days plate.now piece.now }
{
    if piece.from > piece.to || piece.to >= days {
        return false;
    }
    let (wide, high) = piece.shape.extent();
    u32::from(piece.x) + wide as u32 <= u32::from(plate.width)
        && u32::from(piece.y) + high as u32 <= u32::from(plate.height)
}

impl Yard {
    /// Whether a piece's plate exists, its days are in order and below the number of days, and it lies inside the plate.
    fn holds_piece(&self, piece: &Fixed) -> bool
        ensures { IsTrue result ↔ IsPiece self.now.days self.now.plates piece.now }
    {
        let _shape = piece.shape.points();
        let Some(plate) = self.plates().get(piece.plate as usize) else {
            return false;
        };
        lies_within(piece, plate, self.days())
    }

    /// Whether the piece may be added: fewer than 48 stand, its plate exists, its days are in order and below the number
    /// of days, it lies inside its plate, and it is apart from each piece on its plate that shares a day with it.
    pub fn can_add_fixed(&self, piece: &Fixed) -> bool
        ensures { IsTrue result ↔ CanAddFixed self.now piece.now }
    {
        let pieces = self.fixed();
        if pieces.len() >= 48 || !self.holds_piece(piece) {
            return false;
        }
        for other in pieces {
            if !stand_apart(other, piece) {
                return false;
            }
        }
        true
    }
}

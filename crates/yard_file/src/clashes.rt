//! Clashes of fixed pieces.
ghost use Rattle.std.specs.Prelude.{◌≡◌, ◌≤◌, ◌<◌, ◌↔◌, All, None, Some, false, length};
ghost use Rattle.shape_exact.specs.Separation.{IsWithin};
ghost use Rattle.shape_exact.specs.Shapes.{AreApart};
ghost use Rattle.shape_exact.specs.Yards.{StandApart, piece_at};
ghost use Rattle.yard_file.specs.Clashes.{first_clash, overlap, pieces_clash};

use shape_exact::{Fixed, Point, apart};

/// The point, in plate units, to which a piece's footprint is shifted.
fn place_of(piece: &Fixed) -> Point
    requires { (piece.now.x ≤ 400) × (piece.now.y ≤ 400) }
    ensures value { result ≡ piece_at piece.now }
    ensures within { IsWithin 10000 result }
{
    Point {
        x: i32::from(piece.x),
        y: i32::from(piece.y),
    }
}

/// Whether some point is strictly inside both pieces' footprints where they stand.
fn overlap(one: &Fixed, two: &Fixed) -> bool
    requires one { (one.now.x ≤ 400) × (one.now.y ≤ 400) }
    requires two { (two.now.x ≤ 400) × (two.now.y ≤ 400) }
    ensures value { result ≡ overlap one.now.shape (piece_at one.now) two.now.shape (piece_at two.now) }
    ensures apart { (result ≡ false) ↔ AreApart one.now.shape (piece_at one.now) two.now.shape (piece_at two.now) }
{
    let _one = one.shape.points();
    let _two = two.shape.points();
    !apart(&one.shape, place_of(one), &two.shape, place_of(two))
}

/// Whether two pieces stand on one plate on some day, and some point is strictly inside both. The edges of their footprints
/// decide it: that is the separating axis theorem for convex polygons.
pub fn pieces_clash(one: &Fixed, two: &Fixed) -> bool
    requires one { (one.now.x ≤ 400) × (one.now.y ≤ 400) }
    requires two { (two.now.x ≤ 400) × (two.now.y ≤ 400) }
    ensures value { result ≡ pieces_clash one.now two.now }
    ensures apart { (result ≡ false) ↔ StandApart one.now two.now }
{
    one.plate == two.plate && one.from <= two.to && two.from <= one.to && overlap(one, two)
}

/// The number of the first of the pieces that clashes with this one.
pub(crate) fn first_clash(pieces: &[Fixed], piece: &Fixed) -> Option<u8>
    requires few { length pieces.now ≤ 48 }
    requires pieces { All (λ f. (f.x ≤ 400) × (f.y ≤ 400)) pieces.now }
    requires piece { (piece.now.x ≤ 400) × (piece.now.y ≤ 400) }
    ensures value { result ≡ first_clash 0 pieces.now piece.now }
    ensures apart { result ≡ None → All (λ f. StandApart f piece.now) pieces.now }
{
    for (j, other) in pieces.iter().enumerate() {
        if pieces_clash(other, piece) {
            return Some(j as u8);
        }
    }
    None
}

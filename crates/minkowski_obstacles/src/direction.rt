//! The order of directions.
ghost use Rattle.std.specs.Prelude.{◌≡◌};
ghost use Rattle.std.specs.Ordering.{is_lt};
ghost use Rattle.minkowski_obstacles.specs.Merged.{comes_before, half_turns};

use crate::side::Side;
use std::cmp::Ordering;

/// How many whole half turns lie before the side's direction, counterclockwise from straight right on; 2 where it has
/// none.
fn half_turns(s: &Side) -> u8
    ensures { result ≡ half_turns s.now.along }
{
    let (x, y) = (s.along.x, s.along.y);
    if y > 0 || y == 0 && x > 0 {
        0
    } else if y < 0 || y == 0 && x < 0 {
        1
    } else {
        2
    }
}

/// The order of directions, counterclockwise from straight right on.
pub(crate) fn by_direction(a: &Side, b: &Side) -> Ordering
    ensures { is_lt result ≡ comes_before a.now.along b.now.along }
{
    let left = i64::from(a.along.y) * i64::from(b.along.x);
    let right = i64::from(a.along.x) * i64::from(b.along.y);
    half_turns(a).cmp(&half_turns(b)).then(left.cmp(&right))
}

//! The sides of the sum of a fixed shape and a mirrored moving one.
ghost use Rattle.std.specs.Prelude.{◌≡◌, ◌<◌, ◌≤◌, ◌⊎◌, ◌++◌, true, false, All, Any, length};
ghost use Rattle.std.specs.List.{AllZip};
ghost use Rattle.std.specs.List.Sorted.{IsPermutation, IsSortedBy};
ghost use Rattle.shape_exact.specs.Separation.{IsWithin};
ghost use Rattle.shape_exact.specs.Shapes.{IsShape};
ghost use Rattle.shape_exact.specs.Plane.{rim};
ghost use Rattle.shape_exact.specs.Sums.{Of_fixed, Of_moving};
ghost use Rattle.minkowski_obstacles.specs.Sums.{AreJoined, IsSmall, OneWay, wall, IsSum};
ghost use Rattle.minkowski_obstacles.specs.Merged.{comes_before, HasDirection, IsAscending, IsKept, IsNext};

use crate::direction::by_direction;
use crate::edge::Edge;
use crate::furthest::furthest;
use crate::side::Side;
use arrayvec::ArrayVec;
use shape_exact::Point;

/// The sides that the edges of the fixed shape give.
fn fixed_sides(fixed: &[Point], moving: &[Point]) -> ArrayVec<Side, 16>
    requires fixed { All (IsWithin 2000) fixed.now }
    requires moving { All (IsWithin 2000) moving.now }
    requires some { 1 ≤ length moving.now }
    requires few { length fixed.now ≤ 16 }
    ensures sides { AllZip (λ e s. Of_fixed moving.now e (wall s)) (rim fixed.now) result.items }
    ensures small { All IsSmall result.items }
{
    let mut sides = ArrayVec::new();
    for i in 0..fixed.len() {
        let e = Edge::of(fixed, i);
        sides.push(Side::of_fixed(e, furthest(e, moving)));
    }
    sides
}

/// The sides that the edges of the mirrored moving shape give.
fn moving_sides(fixed: &[Point], moving: &[Point]) -> ArrayVec<Side, 16>
    requires fixed { All (IsWithin 2000) fixed.now }
    requires moving { All (IsWithin 2000) moving.now }
    requires some { 1 ≤ length fixed.now }
    requires few { length moving.now ≤ 16 }
    ensures sides { AllZip (λ f s. Of_moving fixed.now f (wall s)) (rim moving.now) result.items }
    ensures small { All IsSmall result.items }
{
    let mut sides = ArrayVec::new();
    for i in 0..moving.len() {
        let f = Edge::of(moving, i);
        sides.push(Side::of_moving(f, furthest(f, fixed)));
    }
    sides
}

/// The same sides, counterclockwise by direction, from straight right on.
fn order(sides: &mut ArrayVec<Side, 16>)
    ensures same { IsPermutation sides.old.items sides.new.items }
    ensures sorted { IsSortedBy (λ a b. comes_before a.along b.along) sides.new.items }
{
    sides.sort_unstable_by(|a, b| by_direction(a, b));
}

/// Whether none of the sides kept so far has the direction of the next one.
fn is_new(kept: &[Side], next: &Side) -> bool
    requires ascending { IsAscending kept.now }
    requires behind { All (λ s. comes_before next.now.along s.along ≡ false) kept.now }
    requires kept { All HasDirection kept.now }
    requires next { HasDirection next.now }
    ensures new { result ≡ true → All (λ s. comes_before s.along next.now.along ≡ true) kept.now }
    ensures old { result ≡ false → Any (λ s. OneWay s next.now) kept.now }
{
    match kept.last() {
        Some(last) => by_direction(last, next).is_lt(),
        None => true,
    }
}

/// Keeps the next side where none kept so far has its direction.
fn keep(kept: &mut ArrayVec<Side, 32>, next: &Side)
    requires room { length kept.old.items < 32 }
    requires ascending { IsAscending kept.old.items }
    requires behind { All (λ s. comes_before next.now.along s.along ≡ false) kept.old.items }
    requires kept { All HasDirection kept.old.items }
    requires next { HasDirection next.now }
    ensures { IsKept kept.old.items next.now kept.new.items }
{
    if is_new(kept.as_slice(), next) {
        kept.push(*next);
    }
}

/// Whether the next side in the order of directions is the first list's, after `i` of it and `j` of the second.
fn first_is_next(first: &[Side], i: usize, second: &[Side], j: usize) -> bool
    requires some { (i < length first.now) ⊎ (j < length second.now) }
    requires first { i ≤ length first.now }
    requires second { j ≤ length second.now }
    ensures yes { result ≡ true → IsNext first.now i second.now j }
    ensures no { result ≡ false → IsNext second.now j first.now i }
{
    if i == first.len() {
        return false;
    }
    if j == second.len() {
        return true;
    }
    !by_direction(&second[j], &first[i]).is_lt()
}

/// The sides of two lists in the order of directions, in that order, and of each direction the first.
fn merged(first: &[Side], second: &[Side]) -> ArrayVec<Side, 32>
    requires first { length first.now ≤ 16 }
    requires second { length second.now ≤ 16 }
    requires first_sorted { IsSortedBy (λ a b. comes_before a.along b.along) first.now }
    requires second_sorted { IsSortedBy (λ a b. comes_before a.along b.along) second.now }
    requires first_directed { All HasDirection first.now }
    requires second_directed { All HasDirection second.now }
    ensures joined { AreJoined (first.now ++ second.now) result.items }
    ensures ascending { IsAscending result.items }
{
    let mut kept = ArrayVec::new();
    let (mut i, mut j) = (0, 0);
    while i < first.len() || j < second.len() {
        if first_is_next(first, i, second, j) {
            keep(&mut kept, &first[i]);
            i += 1;
        } else {
            keep(&mut kept, &second[j]);
            j += 1;
        }
    }
    kept
}

/// The sides of the sum of the fixed shape and the mirrored moving one, merged by direction.
pub(crate) fn sides_of(fixed: &[Point], moving: &[Point]) -> ArrayVec<Side, 32>
    requires fixed { IsShape fixed.now }
    requires moving { IsShape moving.now }
    ensures sum { IsSum fixed.now moving.now result.items }
    ensures ascending { IsAscending result.items }
    ensures small { All IsSmall result.items }
{
    let mut of_fixed = fixed_sides(fixed, moving);
    let mut of_moving = moving_sides(fixed, moving);
    order(&mut of_fixed);
    order(&mut of_moving);
    merged(of_fixed.as_slice(), of_moving.as_slice())
}

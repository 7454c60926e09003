//! The rows of the obstacles of a yard.
ghost use Rattle.std.specs.Prelude.{◌≡◌, ◌+◌, ◌≤◌, ◌<◌, pos, ◌-ℤ◌, length, IfOk, IfSome};
ghost use Rattle.tardiness_bounds.specs.Rows.{AreRows, span_of};

use code_table::Codes;
use minkowski_obstacles::Obstacle;
use shape_exact::NoMemory;
use std::alloc::Global;

/// How many rows are kept at most.
const MOST: usize = 262_144;

/// Rows of obstacles, one obstacle after another: of each those from `reach` units downwards to as many upwards. A row is
/// the least and the greatest x of the obstacle in it; None where it is empty.
#[derive(Drop)]
pub(crate) struct Rows {
    pub reach: u16,
    pub list: Vec<Option<(i32, i32)>>,
}

/// How far down and up the rows of so many obstacles are kept: as far as the highest plate goes, where they are not too
/// many.
fn reach_of(codes: &Codes, obstacles: usize) -> u16
    ensures { result ≤ 400 }
{
    let mut high = 0;
    for plate in codes.yard().plates() {
        high = plate.height.max(high);
    }
    let each = MOST / obstacles.max(1) / 2;
    high.min(each.min(400) as u16)
}

/// How far a coordinate is from another.
pub(crate) fn way(to: u16, from: u16) -> i32
    ensures { result ≡ pos to -ℤ pos from }
{
    i32::from(to) - i32::from(from)
}

/// The place of the row at the y of a block, where another stands at its own, among those of their obstacle. None where
/// it is not kept.
pub(crate) fn row_place(reach: u16, y: u16, at: u16) -> Option<usize>
    ensures { IfSome result (λ k. (k < span_of reach) × (k + at ≡ y + reach)) }
{
    let top = usize::from(y) + usize::from(reach);
    let at = usize::from(at);
    if top < at || at + usize::from(reach) < usize::from(y) {
        return None;
    }
    Some(top - at)
}

impl Rows {
    /// The rows of the obstacles of a yard.
    pub(crate) fn new(
        alloc: Global,
        codes: &Codes,
        obstacles: &[Obstacle],
    ) -> Result<Rows, NoMemory>
        requires { length obstacles.now ≤ 22528 }
        ensures { IfOk result (λ rows. AreRows obstacles.now rows.reach rows.list.items) }
    {
        let reach = reach_of(codes, obstacles.len());
        let span = reach as usize * 2 + 1;
        let mut list = Vec::with_capacity(alloc, obstacles.len() * span)?;
        for k in 0..obstacles.len() * span {
            let y = way((k % span) as u16, reach);
            list.push(obstacles[k / span].row(y))?;
        }
        Ok(Rows { reach, list })
    }
}

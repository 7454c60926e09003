//! How many unit cells a footprint holds: those whose centre is strictly inside.
//!
//! In a row of cells each edge bounds the columns from one side, and one whole division tells where.
ghost use Rattle.std.specs.Prelude.{◌≡◌, ◌≤◌, ◌<◌, ◌↔◌, ℤ, pos, ◌+ℤ◌, ◌-ℤ◌, ◌*ℤ◌, ◌≤ℤ◌, ◌<ℤ◌, true, unsigned_abs, if◌then◌else◌};
ghost use Rattle.std.specs.List.{All};
ghost use Rattle.common_lists.specs.Each.{sum_below};
ghost use Rattle.shape_exact.specs.Shapes.{cells, centre, edges, is_inside, origin, side_of};
ghost use Rattle.shape_exact.specs.Separation.{IsWithin};
ghost use Rattle.shape_exact.specs.Cells.{Holds, centre_of};

use crate::separation::{cross_product, end_of};
use crate::{Point, Shape};

/// The whole numbers from `low` to `high`; there is none where `high` is below `low`.
#[derive(Clone, Copy)]
pub(crate) struct Interval {
    pub low: i32,
    pub high: i32,
}

/// The greatest whole number whose `divisor`-fold is at most `number`.
fn quotient(number: i32, divisor: i32) -> i32
    requires divisor { pos 0 <ℤ divisor }
    requires number { unsigned_abs number ≤ 2_000_000_000 }
    ensures is { (x : ℤ) → ((divisor *ℤ x) ≤ℤ number) ↔ (x ≤ℤ result) }
    ensures small { unsigned_abs result ≤ 2_000_000_000 }
{
    number.div_euclid(divisor)
}

/// The numbers of the interval whose `slope`-fold is below `bound`.
fn cut(s: Interval, slope: i32, bound: i32) -> Interval
    requires slope { unsigned_abs slope ≤ 1_000_000 }
    requires bound { unsigned_abs bound ≤ 1_500_000_000 }
    ensures { (x : ℤ) → Holds result x ↔ (Holds s x × ((slope *ℤ x) <ℤ bound)) }
{
    if slope > 0 {
        let top = quotient(bound - 1, slope);
        if top < s.high {
            Interval {
                low: s.low,
                high: top,
            }
        } else {
            s
        }
    } else if slope < 0 {
        let bottom = -quotient(bound - 1, -slope);
        if s.low < bottom {
            Interval {
                low: bottom,
                high: s.high,
            }
        } else {
            s
        }
    } else if bound > 0 {
        s
    } else {
        Interval { low: 1, high: 0 }
    }
}

/// The columns of the interval whose cell in row `j` has its centre strictly on the inner side of the edge.
fn cut_by(columns: Interval, from: Point, to: Point, j: i32) -> Interval
    requires from { IsWithin 2000 from }
    requires to { IsWithin 2000 to }
    requires j { (pos 0 ≤ℤ j) × (j ≤ℤ pos 2000) }
    ensures { (i : ℤ) → Holds result i ↔ (Holds columns i × (pos 0 <ℤ side_of from to origin (centre_of i j))) }
{
    let up = to.y - from.y;
    let bound = cross_product(to.x - from.x, up, 1 - 2 * from.x, 2 * j + 1 - 2 * from.y);
    cut(columns, 2 * up, bound)
}

/// The columns, of the first `width`, whose cell in row `j` has its centre strictly inside.
fn row(vertices: &[Point], width: i32, j: i32) -> Interval
    requires vertices { All (IsWithin 2000) vertices.now }
    requires width { (pos 0 ≤ℤ width) × (width ≤ℤ pos 2000) }
    requires j { (pos 0 ≤ℤ j) × (j ≤ℤ pos 2000) }
    ensures { (i : ℤ)
        → Holds result i
        ↔ (((pos 0 ≤ℤ i) × (i <ℤ width)) × (is_inside vertices.now origin (centre_of i j) ≡ true)) }
{
    let mut columns = Interval {
        low: 0,
        high: width - 1,
    };
    for k in 0..vertices.len() {
        columns = cut_by(columns, vertices[k], end_of(vertices, k), j);
    }
    columns
}

/// How many cells of row `j`, of the first `width`, have their centre strictly inside.
fn row_count(vertices: &[Point], width: u32, j: u32) -> u32
    requires vertices { All (IsWithin 2000) vertices.now }
    requires width { width ≤ 2000 }
    requires j { j ≤ 2000 }
    ensures { result ≡ sum_below width (λ i. if is_inside vertices.now origin (centre i j) then 1 else 0) }
{
    let columns = row(vertices, width as i32, j as i32);
    if columns.low <= columns.high {
        (columns.high - columns.low).unsigned_abs() + 1
    } else {
        0
    }
}

impl Shape {
    /// The number of unit cells whose centre is strictly inside the shape: at most the area of its extent.
    pub fn cells(&self) -> u32
        ensures { result ≡ cells self.now }
    {
        let (width, height) = self.extent();
        let points = self.points();
        let columns = width.unsigned_abs();
        let rows = height.unsigned_abs();
        let mut cells = 0;
        for j in 0..rows {
            cells += row_count(points, columns, j);
        }
        cells
    }
}

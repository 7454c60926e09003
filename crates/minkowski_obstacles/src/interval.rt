//! Intervals of whole numbers, cut by the lines of sides.
ghost use Rattle.std.specs.Prelude.{ℤ, pos, ◌≡◌, ◌≤◌, ◌≤ℤ◌, ◌<ℤ◌, ◌*ℤ◌, ◌↔◌, unsigned_abs};
ghost use Rattle.minkowski_obstacles.specs.Intervals.{Holds};

/// The whole numbers from `low` to `high`. There is none where `high` is below `low`.
#[derive(Clone, Copy)]
pub(crate) struct Interval {
    pub(crate) low: i64,
    pub(crate) high: i64,
}

/// The greatest whole number whose `divisor`-fold is at most `number`.
fn quotient(number: i64, divisor: i64) -> i64
    requires divisor { pos 0 <ℤ divisor }
    requires number { unsigned_abs number ≤ 30_000_000_000_000 }
    ensures is { (x : ℤ) → ((divisor *ℤ x) ≤ℤ number) ↔ (x ≤ℤ result) }
    ensures small { unsigned_abs result ≤ 30_000_000_000_000 }
{
    number.div_euclid(divisor)
}

impl Interval {
    /// The numbers of the interval whose `slope`-fold is below `bound`.
    pub(crate) fn cut(self, slope: i64, bound: i64) -> Interval
        requires slope { unsigned_abs slope ≤ 1_000_000 }
        requires bound { unsigned_abs bound ≤ 20_000_000_000_000 }
        ensures { (x : ℤ) → Holds result x ↔ (Holds self x × ((slope *ℤ x) <ℤ bound)) }
    {
        if slope > 0 {
            self.up_to(quotient(bound - 1, slope))
        } else if slope < 0 {
            self.down_to(-quotient(bound - 1, -slope))
        } else if bound > 0 {
            self
        } else {
            Interval { low: 1, high: 0 }
        }
    }

    /// The numbers of the interval up to `top`.
    fn up_to(self, top: i64) -> Interval
        ensures { (x : ℤ) → Holds result x ↔ (Holds self x × (x ≤ℤ top)) }
    {
        Interval {
            low: self.low,
            high: self.high.min(top),
        }
    }

    /// The numbers of the interval from `bottom` on.
    fn down_to(self, bottom: i64) -> Interval
        ensures { (x : ℤ) → Holds result x ↔ (Holds self x × (bottom ≤ℤ x)) }
    {
        Interval {
            low: self.low.max(bottom),
            high: self.high,
        }
    }
}

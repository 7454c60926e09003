//! Columns and rows: numbers of multiples of the pitch.
ghost use Rattle.std.specs.Prelude.{ℕ, ◌+◌, ◌<◌, ◌≤◌, ◌*◌, ◌↔◌, pos, ◌≤ℤ◌, ◌<ℤ◌, IfNone, IfSome};
ghost use Rattle.lattice_free.specs.Gaps.{FitsWithin, IsBetween};

use crate::forbidden::Forbidden;

/// How many multiples of the pitch, 0 among them, lie below `x`.
pub(crate) fn multiples_below(x: u16, pitch: u16) -> u16
    requires { 1 ≤ pitch }
    ensures below { (k : ℕ) → (k < result) ↔ (k * pitch < x) }
    ensures bound { result ≤ x }
{
    if pitch == 1 {
        return x;
    }
    x.div_ceil(pitch)
}

/// How many multiples k of the pitch, 0 among them, have k * pitch + reach at most `size`.
pub fn steps(size: u16, reach: u16, pitch: u16) -> u16
    requires pitch { 1 ≤ pitch }
    requires size { size ≤ 400 }
    ensures within { (k : ℕ) → (k < result) ↔ (k * pitch + reach ≤ size) }
    ensures bound { result ≤ 401 }
{
    if reach > size {
        return 0;
    }
    multiples_below(size - reach + 1, pitch)
}

/// The number, or 0 where it is below 0.
fn clamped(v: i32) -> u16
    requires { v ≤ℤ pos 4000 }
    ensures { (n : ℕ) → (n < result) ↔ (pos n <ℤ v) }
{
    v.max(0) as u16
}

/// The columns whose x lies from `low` to `high`; None where there is none.
pub fn columns_between(low: i32, high: i32, pitch: u16, columns: u16) -> Option<Forbidden>
    requires pitch { 1 ≤ pitch }
    requires low { low ≤ℤ pos 3000 }
    requires high { high ≤ℤ pos 3000 }
    ensures fits { IfSome result (FitsWithin columns) }
    ensures none { IfNone result ((k : ℕ) → k < columns → IsBetween low high (k * pitch) → ⊥) }
    ensures some { IfSome result (λ s. (k : ℕ) → k < columns
        → ((s.from ≤ k) × (k < s.to)) ↔ IsBetween low high (k * pitch)) }
{
    let from = multiples_below(clamped(low), pitch);
    let to = multiples_below(clamped(high + 1), pitch).min(columns);
    if from < to {
        Some(Forbidden { from, to })
    } else {
        None
    }
}

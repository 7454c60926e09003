//! The window of greatest energy.
ghost use Rattle.std.specs.Prelude.{◌≡◌, ◌≤◌, ◌<◌, ◌+◌, ◌*◌, ◌↔◌, ◌⊎◌, ℕ, IsTrue, Some, true, slice_index_or, false};
ghost use Rattle.plan_rule.specs.Boxes.{IsBox};
ghost use Rattle.plan_rule.specs.Bounds.{IsBase};
ghost use Rattle.plan_rule.specs.Yards.{choices};
ghost use Rattle.tardiness_bounds.specs.BestWindows.{AnyWindow, IsAbove, IsBestAmong, IsBestWindow, IsCandidate, IsDue, IsStart, Precedes, bar_of};
ghost use Rattle.tardiness_bounds.specs.Sides.{AreExactPlaces};
ghost use Rattle.tardiness_bounds.specs.Numbers.{number};

use crate::base_of::sum;
use crate::block::block_at;
use crate::bound::{Bound, bound_of};
use crate::energy_of::energy_in;
use crate::side::Side;
use crate::window::Window;
use code_table::Codes;
use plan_rule::{PlanBox, block_count};

/// A window and its energy.
#[derive(Clone, Copy)]
pub(crate) struct Best {
    pub from: u16,
    pub to: u16,
    pub energy: Bound,
}

/// Which days are the release of a block that is not exact in the box.
fn starts_of(codes: &Codes, side: &Side<'_>) -> [bool; 400]
    requires { AreExactPlaces codes.now side.now }
    ensures { (d : ℕ) → d < 400 → (slice_index_or result d false ≡ true) ↔ IsStart (choices codes.now) side.now.literals d }
{
    codes.limits();
    let mut is_start = [false; 400];
    for block in 0..block_count(codes) {
        let place = side.place(block);
        if place.is_none() {
            is_start[block_at(codes, block).release as usize] = true;
        }
    }
    is_start
}

/// Which days are the due day of a block that is not exact in the box.
fn dues_of(codes: &Codes, side: &Side<'_>) -> [bool; 400]
    requires { AreExactPlaces codes.now side.now }
    ensures { (d : ℕ) → d < 400 → (slice_index_or result d false ≡ true) ↔ IsDue (choices codes.now) side.now.literals d }
{
    codes.limits();
    let mut is_due = [false; 400];
    for block in 0..block_count(codes) {
        let place = side.place(block);
        if place.is_none() {
            is_due[block_at(codes, block).due as usize] = true;
        }
    }
    is_due
}

/// Whether the first bound is above the second.
fn is_above(r: Bound, k: Bound) -> bool
    ensures { IsTrue result ↔ IsAbove (number r) (number k) }
{
    match (r, k) {
        (_, Bound::Never) => false,
        (Bound::Never, Bound::Number(_)) => true,
        (Bound::Number(r), Bound::Number(k)) => k < r,
    }
}

/// What an energy must be above to be the best: that of the best window so far, or the base.
fn bar_of(best: Option<Best>, base: Bound) -> Bound
    ensures { result ≡ bar_of best base }
{
    match best {
        Some(best) => best.energy,
        None => base,
    }
}

/// The best window, with one candidate more, after those before it.
fn with_window(
    codes: &Codes,
    side: &Side<'_>,
    base: u32,
    best: Option<Best>,
    u: u16,
    e: u16,
) -> Option<Best>
    requires side { AreExactPlaces codes.now side.now }
    requires base { IsBase (choices codes.now) side.now.literals (Some base) }
    requires few { base ≤ 400000 * 32 }
    requires best { IsBestAmong (choices codes.now) side.now.literals (Precedes u e) best }
    requires candidate { IsCandidate (choices codes.now) side.now.literals u e }
    ensures { IsBestAmong (choices codes.now) side.now.literals (Precedes u (e + 1)) result }
{
    let next = bound_of(energy_in(codes, side, base, Window { from: u, to: e }));
    if is_above(next, bar_of(best, Bound::Number(base))) {
        Some(Best {
            from: u,
            to: e,
            energy: next,
        })
    } else {
        best
    }
}

/// Whether windows end on the day: it is marked as a due day, or it is the last day.
fn is_end(codes: &Codes, is_due: &[bool; 400], e: u16) -> bool
    requires { e < (choices codes.now).days }
    ensures yes { result ≡ true → (slice_index_or is_due.now e false ≡ true) ⊎ (e + 1 ≡ (choices codes.now).days) }
    ensures no { result ≡ false → (slice_index_or is_due.now e false ≡ true) ⊎ (e + 1 ≡ (choices codes.now).days) → ⊥ }
{
    let days = codes.yard().days();
    if is_due[e as usize] {
        return true;
    }
    e + 1 == days
}

/// The best window, with the candidates that begin on a day, after those that begin before it.
fn with_day(
    codes: &Codes,
    side: &Side<'_>,
    is_due: &[bool; 400],
    base: u32,
    best: Option<Best>,
    u: u16,
) -> Option<Best>
    requires side { AreExactPlaces codes.now side.now }
    requires base { IsBase (choices codes.now) side.now.literals (Some base) }
    requires few { base ≤ 400000 * 32 }
    requires dues { (d : ℕ) → d < 400 → (slice_index_or is_due.now d false ≡ true) ↔ IsDue (choices codes.now) side.now.literals d }
    requires best { IsBestAmong (choices codes.now) side.now.literals (Precedes u 0) best }
    requires start { IsStart (choices codes.now) side.now.literals u }
    ensures { IsBestAmong (choices codes.now) side.now.literals (Precedes (u + 1) 0) result }
{
    let days = codes.yard().days();
    let mut best = best;
    for e in u..days {
        if is_end(codes, is_due, e) {
            best = with_window(codes, side, base, best, u, e);
        }
    }
    best
}

/// The best window of all candidates.
fn best_of(codes: &Codes, side: &Side<'_>, base: u32) -> Option<Best>
    requires side { AreExactPlaces codes.now side.now }
    requires base { IsBase (choices codes.now) side.now.literals (Some base) }
    requires few { base ≤ 400000 * 32 }
    ensures { IsBestAmong (choices codes.now) side.now.literals AnyWindow result }
{
    let is_start = starts_of(codes, side);
    let is_due = dues_of(codes, side);
    let mut best = None;
    for u in 0..codes.yard().days() {
        if is_start[u as usize] {
            best = with_day(codes, side, &is_due, base, best, u);
        }
    }
    best
}

/// The window of greatest energy, Never above every number, among those from the release of a block without an exact
/// literal to the due day of such a block or the last day; of several the one with the least first day, and then with
/// the least last day. None where no window's energy is above the base. Takes no memory.
pub fn best_window(codes: &Codes, part: &PlanBox) -> Option<(u16, u16)>
    requires { IsBox (choices codes.now) part.now }
    ensures { IsBestWindow (choices codes.now) part.now result }
{
    let Some(base) = sum(codes, part) else {
        return None;
    };
    let side = Side::of(codes, part);
    match best_of(codes, &side, base) {
        Some(best) => Some((best.from, best.to)),
        None => None,
    }
}

//! Ascending lists of days.
ghost use Rattle.std.specs.Prelude.{ℕ, ◌+◌, ◌≡◌, ◌≤◌, ◌<◌, ◌==◌, ◌||◌, true, false, [], length};
ghost use Rattle.shape_exact.specs.Days.{with_day, has_day, place_of, are_days};

use arrayvec::ArrayVec;
use std::marker::Model;

/// At most 400 day numbers, each below 400, strictly ascending.
#[derive(Clone, Drop)]
pub struct DayList {
    days: ArrayVec<u16, 400>,
}

impl Model for DayList {
    ghost use Rattle.std.specs.Prelude.{◌≡◌, List, ℕ, true};
    ghost use Rattle.shape_exact.specs.Days.{are_days};

    ghost Value = { List ℕ };

    ghost view = { λ n. n.days.items };

    ghost invariant = { λ n. are_days 0 400 n.days.items ≡ true };
}

/// How many of the first days come before the day.
fn place_of(days: &[u16], day: u16) -> usize
    ensures within { result ≤ length days.now }
    ensures value { result ≡ place_of day days.now }
{
    for (i, d) in days.iter().enumerate() {
        if *d >= day {
            return i;
        }
    }
    days.len()
}

impl DayList {
    /// The list of no day.
    pub fn empty() -> DayList
        ensures { result ≡ [] }
    {
        DayList {
            days: ArrayVec::new(),
        }
    }

    /// The days, ascending.
    pub fn days(&self) -> &[u16]
        ensures value { result.now ≡ self.now }
        ensures ascending { are_days 0 400 result.now ≡ true }
        ensures few { length result.now ≤ 400 }
    {
        self.days.as_slice()
    }

    /// Whether the list has the day.
    pub fn has(&self, day: u16) -> bool
        ensures { result ≡ has_day day self.now }
    {
        self.days.as_slice().contains(&day)
    }

    /// Puts the day in its place; a day that is there already is not put twice.
    pub fn put(&mut self, day: u16)
        requires { day < 400 }
        ensures value { self.new ≡ with_day day self.old }
        ensures holds { (d : ℕ) → has_day d self.new ≡ (day == d || has_day d self.old) }
        ensures len { has_day day self.old ≡ false → length self.new ≡ length self.old + 1 }
        ensures few { length self.new ≤ 400 }
        ensures below { (high : ℕ) → day < high → are_days 0 high self.old ≡ true → are_days 0 high self.new ≡ true }
    {
        if self.has(day) {
            return;
        }
        let at = place_of(self.days.as_slice(), day);
        self.days.insert(at, day);
    }
}

impl Default for DayList {
    ghost is_default = { λ n. n ≡ [] };

    fn default() -> DayList {
        DayList::empty()
    }
}

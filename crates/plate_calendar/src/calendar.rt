//! Calendars.
ghost use Rattle.std.specs.Prelude.{◌≡◌, ℕ, ◌^◌, ◌≤◌, ◌<◌, true, false, [], ◌∷◌, length, not, slice_index_or, IfOk, OnOk, IfErr};
ghost use Rattle.shape_exact.specs.Days.{has_day, are_days};
ghost use Rattle.common_lists.specs.Each.{each, when};
ghost use Rattle.plate_calendar.specs.Calendars.{open_days, end_of, open_between};
ghost use Rattle.plate_calendar.specs.Counts.{count_below};
ghost use Rattle.plate_calendar.specs.Faults.{IsGoodEntry, IsFirstFault};

use crate::DayFault;
use arrayvec::ArrayVec;
use shape_exact::DayList;
use std::marker::Model;

/// The greatest number of days.
const MOST_DAYS: usize = 400;

/// The open days of a plate. Contracts see them as the ascending list of their numbers.
#[derive(Drop)]
pub struct Calendar {
    /// The open days, ascending.
    opens: ArrayVec<u16, 400>,
    /// How many open days are below each number from 0 to 400.
    before: [u16; 401],
}

impl Model for Calendar {
    ghost use Rattle.std.specs.Prelude.{List, ℕ};
    ghost use Rattle.plate_calendar.specs.Counts.{IsCounted};

    ghost Value = { List ℕ };

    ghost view = { λ c. c.opens.items };

    ghost invariant = { λ c. IsCounted c.opens.items c.before };
}

/// The calendar of the days below `days` that are not marked.
fn calendar_of(days: u16, is_closed: &[bool; 400]) -> Calendar
    requires { days ≤ 400 }
    ensures { result ≡ each days (λ d. when (not (slice_index_or is_closed.now d false)) (d ∷ [])) }
{
    let mut opens = ArrayVec::new();
    let mut before = [0; 401];
    for day in 0..401u16 {
        before[day as usize] = opens.len() as u16;
        if day < days && !is_closed[day as usize] {
            opens.push(day);
        }
    }
    Calendar { opens, before }
}

impl Calendar {
    /// The calendar of days 0 to `days - 1` without the closed ones. Refused with the first entry that is not below
    /// `days` or equals an earlier one.
    pub fn new(days: u16, closed: &[u16]) -> Result<Calendar, DayFault>
        requires days { (1 ≤ days) × (days ≤ 400) }
        requires entries { length closed.now < 2 ^ 32 }
        ensures value { IfOk result (λ c. c ≡ open_days days closed.now) }
        ensures good { OnOk result ((i : ℕ) → IsGoodEntry days closed.now i) }
        ensures fault { IfErr result (λ e. IsFirstFault days closed.now e) }
    {
        let mut is_closed = [false; 400];
        for (i, day) in closed.iter().enumerate() {
            if *day >= days {
                return Err(DayFault::Range(i as u32));
            }
            if is_closed[*day as usize] {
                return Err(DayFault::Twice(i as u32));
            }
            is_closed[*day as usize] = true;
        }
        Ok(calendar_of(days, &is_closed))
    }

    /// The calendar of a plate with these closed days.
    pub fn of_list(days: u16, closed: &DayList) -> Calendar
        requires days { (1 ≤ days) × (days ≤ 400) }
        requires below { are_days 0 days closed.now ≡ true }
        ensures { result ≡ open_days days closed.now }
    {
        match Calendar::new(days, closed.days()) {
            Ok(calendar) => calendar,
            Err(_) => unreachable!(),
        }
    }

    /// Whether the day is open. A day that is not below the number of days is not.
    pub fn is_open(&self, day: u16) -> bool
        ensures { result ≡ has_day day self.now }
    {
        (day as usize) < MOST_DAYS && self.before[day as usize] < self.before[day as usize + 1]
    }

    /// The day on which work of `duration` open days ends that starts on this day, counted as its first. None where the
    /// start is not open, or where fewer open days are left.
    pub fn end(&self, start: u16, duration: u16) -> Option<u16>
        requires { 1 ≤ duration }
        ensures { result ≡ end_of self.now start duration }
    {
        if !self.is_open(start) {
            return None;
        }
        let last = self.before[start as usize] as usize + (duration as usize - 1);
        self.opens.as_slice().get(last).copied()
    }

    /// How many open days are below a number.
    fn count_below(&self, day: usize) -> u16
        ensures value { result ≡ count_below day self.now }
        ensures few { result ≤ 400 }
    {
        self.before[day.min(MOST_DAYS)]
    }

    /// How many open days lie from `first` to `last`, both included.
    pub fn open_between(&self, first: u16, last: u16) -> u16
        ensures { result ≡ open_between self.now first last }
    {
        if last < first {
            return 0;
        }
        self.count_below(last as usize + 1) - self.count_below(first as usize)
    }
}

impl Default for Calendar {
    ghost is_default = { λ c. c ≡ [] };

    fn default() -> Calendar {
        calendar_of(0, &[true; 400])
    }
}

#[cfg(test)]
mod tests {
    use crate::{Calendar, DayFault};

    #[test]
    fn a_closed_day_is_no_work(rt: HostRuntime) {
        let Ok(calendar) = Calendar::new(10, &[5]) else {
            panic!(rt; "refused");
        };
        let rows = [
            (4, 2, Some(6)),
            (4, 5, Some(9)),
            (4, 6, None),
            (5, 1, None),
            (10, 1, None),
            (9, 1, Some(9)),
        ];
        for (start, duration, end) in rows {
            assert_eq!(rt;
                calendar.end(start, duration),
                end,
                "from {start} for {duration}"
            );
        }
        assert_eq!(rt; calendar.open_between(4, 6), 2);
        assert!(rt; !calendar.is_open(5) && !calendar.is_open(10));
    }

    #[test]
    fn the_first_wrong_entry_is_named(rt: HostRuntime) {
        assert_eq!(rt; Calendar::new(10, &[10]).err(), Some(DayFault::Range(0)));
        assert_eq!(rt; Calendar::new(10, &[5, 5]).err(), Some(DayFault::Twice(1)));
    }
}

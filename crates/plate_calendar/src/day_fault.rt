//! What is wrong with a list of closed days.

/// Why a list of days is no list of closed days: `Range(i)`, entry `i` is not below the number of days; `Twice(i)`,
/// entry `i` equals an earlier one. Entries are numbered from 0.
#[derive(Clone, Copy, Debug, PartialEq, Eq)]
pub enum DayFault {
    Range(u32),
    Twice(u32),
}

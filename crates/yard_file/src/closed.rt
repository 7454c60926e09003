//! Reads closed days.
ghost use Rattle.std.specs.Prelude.{◌≡◌, ◌≤◌, IfOk, option_map, true};
ghost use Rattle.toml.specs.View.{view, items_view};
ghost use Rattle.shape_exact.specs.Days.{are_days};
ghost use Rattle.yard_file.specs.Closed.{closed_in, closed_items};

use crate::distinct::{all_integers, read_distinct};
use crate::{At, Key, YardFault};
use shape_exact::DayList;
use toml::Value;

/// The days of an array, each below the number of days and none twice.
fn read_days(items: &[Value], days: u16, plate: u8) -> Result<DayList, YardFault>
    requires { days ≤ 400 }
    ensures value { result ≡ closed_items days plate (items_view items.now) }
    ensures below { IfOk result (λ list. are_days 0 days list ≡ true) }
{
    if !all_integers(items) {
        return Err(YardFault::Kind(At::Plate(plate), Key::Closed));
    }
    match read_distinct(days, items) {
        Ok(list) => Ok(list),
        Err(fault) => Err(YardFault::Day(plate, fault)),
    }
}

/// The closed days of a plate: none where there is no value.
pub(crate) fn closed_of(value: Option<&Value>, days: u16, plate: u8) -> Result<DayList, YardFault>
    requires { days ≤ 400 }
    ensures value { result ≡ closed_in days plate (option_map (λ v. view v.now) value.entry) }
    ensures below { IfOk result (λ list. are_days 0 days list ≡ true) }
{
    let Some(value) = value else {
        return Ok(DayList::empty());
    };
    match value.as_array() {
        Some(items) => read_days(items.as_slice(), days, plate),
        None => Err(YardFault::Kind(At::Plate(plate), Key::Closed)),
    }
}

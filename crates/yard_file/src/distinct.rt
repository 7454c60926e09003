//! Reads arrays of distinct numbers.
ghost use Rattle.std.specs.Prelude.{◌≡◌, ◌≤◌, [], IfOk, true};
ghost use Rattle.toml.specs.View.{view, items_view};
ghost use Rattle.shape_exact.specs.Days.{are_days};
ghost use Rattle.yard_file.specs.Distinct.{all_integers, distinct_from, number_below};

use plate_calendar::DayFault;
use shape_exact::DayList;
use toml::Value;

/// Whether every item is an integer.
pub(crate) fn all_integers(items: &[Value]) -> bool
    ensures { result ≡ all_integers (items_view items.now) }
{
    for value in items {
        if !value.is_integer() {
            return false;
        }
    }
    true
}

/// The number that a value is, where it is below the limit.
fn number_below(limit: u16, value: &Value) -> Option<u16>
    ensures { result ≡ number_below limit (view value.now) }
{
    match u16::try_from(value.as_integer()?) {
        Ok(n) if n < limit => Some(n),
        _ => None,
    }
}

/// The numbers of an array, ascending, or the first item that is not below the limit or equals an earlier one.
pub(crate) fn read_distinct(limit: u16, items: &[Value]) -> Result<DayList, DayFault>
    requires { limit ≤ 400 }
    ensures value { result ≡ distinct_from limit 0 [] (items_view items.now) }
    ensures below { IfOk result (λ list. are_days 0 limit list ≡ true) }
{
    let mut list = DayList::empty();
    for (i, value) in items.iter().enumerate() {
        let Some(n) = number_below(limit, value) else {
            return Err(DayFault::Range(i as u32));
        };
        if list.has(n) {
            return Err(DayFault::Twice(i as u32));
        }
        list.put(n);
    }
    Ok(list)
}

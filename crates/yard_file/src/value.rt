//! Reads the value under a key.
ghost use Rattle.std.specs.Prelude.{◌≡◌, ◌≤◌, IfOk, option_map};
ghost use Rattle.toml.specs.Data.{get_member};
ghost use Rattle.toml.specs.View.{view, table_view};
ghost use Rattle.yard_file.specs.Values.{within, integer_of, number_in, optional_in, value_in};

use crate::{At, Key, YardFault};
use toml::{Table, Value};

/// The value under a key's word.
fn value_under<'a>(table: &'a Table, word: &str) -> Option<&'a Value>
    ensures { option_map (λ v. view v.now) result ≡ get_member word.now (table_view table.now) }
{
    table.get(word)
}

/// The value under a key.
pub(crate) fn value_at(table: &Table, key: Key) -> Option<&Value>
    ensures { option_map (λ v. view v.now) result ≡ value_in key (table_view table.now) }
{
    value_under(table, key.word())
}

/// The number, where it is one from `low` to `high`.
fn within(at: At, key: Key, low: u16, high: u16, number: i64) -> Result<u16, YardFault>
    ensures value { result ≡ within at key low high number }
    ensures bounds { IfOk result (λ n. (low ≤ n) × (n ≤ high)) }
{
    match u16::try_from(number) {
        Ok(n) if low <= n && n <= high => Ok(n),
        _ => Err(YardFault::Number(at, key, number)),
    }
}

/// The integer under a key that has to be there.
pub(crate) fn integer_at(table: &Table, at: At, key: Key) -> Result<i64, YardFault>
    ensures { result ≡ integer_of at key (value_in key (table_view table.now)) }
{
    let Some(value) = value_at(table, key) else {
        return Err(YardFault::Missing(at, key));
    };
    match value.as_integer() {
        Some(number) => Ok(number),
        None => Err(YardFault::Kind(at, key)),
    }
}

/// A number from `low` to `high` under a key that has to be there.
pub(crate) fn number_at(
    table: &Table,
    at: At,
    key: Key,
    low: u16,
    high: u16,
) -> Result<u16, YardFault>
    ensures value { result ≡ number_in at key low high (table_view table.now) }
    ensures bounds { IfOk result (λ n. (low ≤ n) × (n ≤ high)) }
{
    within(at, key, low, high, integer_at(table, at, key)?)
}

/// A number from `low` to `high`, or `absent` where its key is.
pub(crate) fn optional_at(
    table: &Table,
    at: At,
    key: Key,
    low: u16,
    high: u16,
    absent: u16,
) -> Result<u16, YardFault>
    requires { (low ≤ absent) × (absent ≤ high) }
    ensures value { result ≡ optional_in at key low high absent (table_view table.now) }
    ensures bounds { IfOk result (λ n. (low ≤ n) × (n ≤ high)) }
{
    let Some(value) = value_at(table, key) else {
        return Ok(absent);
    };
    match value.as_integer() {
        Some(number) => within(at, key, low, high, number),
        None => Err(YardFault::Kind(at, key)),
    }
}

//! Reads arrays of tables.
ghost use Rattle.std.specs.Prelude.{◌≡◌, ◌≤◌, IfOk, length};
ghost use Rattle.toml.specs.View.{items_view, table_view};
ghost use Rattle.yard_file.specs.Arrays.{all_tables, block_tables, piece_tables, plate_tables, tables_of, told};
ghost use Rattle.yard_file.specs.Values.{value_in, viewed};

use crate::value::value_at;
use crate::{At, Key, YardFault};
use toml::{Table, Value};

/// Whether every item is a table.
fn all_tables(items: &[Value]) -> bool
    ensures { result ≡ all_tables (items_view items.now) }
{
    for value in items {
        if value.as_table().is_none() {
            return false;
        }
    }
    true
}

/// A count as a refusal tells it.
fn told(count: usize) -> u32
    ensures { result ≡ told count }
{
    match u32::try_from(count) {
        Ok(n) => n,
        Err(_) => u32::MAX,
    }
}

/// The tables of an array under a key of the top table, none where it is absent.
fn tables_at(table: &Table, key: Key) -> Result<&[Value], YardFault>
    ensures { viewed (λ s. items_view s.now) result ≡ tables_of key (value_in key (table_view table.now)) }
{
    let Some(value) = value_at(table, key) else {
        return Ok(&[]);
    };
    let Some(items) = value.as_array() else {
        return Err(YardFault::Kind(At::Top, key));
    };
    if !all_tables(items.as_slice()) {
        return Err(YardFault::Kind(At::Top, key));
    }
    Ok(items.as_slice())
}

/// The tables of the plates, 1 to 8.
#[tactic(auto, unfolding(crate::specs::Arrays::plate_tables), using(crate::proofs::ItemLaws::count_items))]
pub(crate) fn plate_tables(table: &Table) -> Result<&[Value], YardFault>
    ensures value { viewed (λ s. items_view s.now) result ≡ plate_tables (table_view table.now) }
    ensures few { IfOk result (λ s. length s.now ≤ 8) }
{
    let items = tables_at(table, Key::Plate)?;
    if items.is_empty() {
        return Err(YardFault::NoPlate);
    }
    if items.len() > 8 {
        return Err(YardFault::TooManyPlates(told(items.len())));
    }
    Ok(items)
}

/// The tables of the blocks, 1 to 32.
#[tactic(auto, unfolding(crate::specs::Arrays::block_tables), using(crate::proofs::ItemLaws::count_items))]
pub(crate) fn block_tables(table: &Table) -> Result<&[Value], YardFault>
    ensures value { viewed (λ s. items_view s.now) result ≡ block_tables (table_view table.now) }
    ensures few { IfOk result (λ s. length s.now ≤ 32) }
{
    let items = tables_at(table, Key::Block)?;
    if items.is_empty() {
        return Err(YardFault::NoBlock);
    }
    if items.len() > 32 {
        return Err(YardFault::TooManyBlocks(told(items.len())));
    }
    Ok(items)
}

/// The tables of the fixed pieces, at most 48.
#[tactic(auto, unfolding(crate::specs::Arrays::piece_tables), using(crate::proofs::ItemLaws::count_items))]
pub(crate) fn piece_tables(table: &Table) -> Result<&[Value], YardFault>
    ensures value { viewed (λ s. items_view s.now) result ≡ piece_tables (table_view table.now) }
    ensures few { IfOk result (λ s. length s.now ≤ 48) }
{
    let items = tables_at(table, Key::Fixed)?;
    if items.len() > 48 {
        return Err(YardFault::TooManyFixed(told(items.len())));
    }
    Ok(items)
}

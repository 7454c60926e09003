//! Reads blocks.
ghost use Rattle.std.specs.Prelude.{◌≡◌, ◌≤◌, [], length, IfOk, false};
ghost use Rattle.toml.specs.View.{view, items_view, table_view};
ghost use Rattle.shape_exact.specs.Yards.{IsBlock, has_name, block_names};
ghost use Rattle.yard_file.specs.Values.{viewed};
ghost use Rattle.yard_file.specs.Blocks.{block_rules, block_of, blocks_from};

use crate::footprints::block_shape;
use crate::keys::{block_keys, known_keys};
use crate::names::block_name;
use crate::turns::turns_of;
use crate::value::{number_at, optional_at, value_at};
use crate::{At, Key, YardFault};
use shape_exact::{Block, Yard};
use toml::{Table, Value};

/// Block `i` of a table in a file of this version, after others.
#[tactic(auto, unfolding(crate::specs::Blocks::block_rules))]
fn table_block(table: &Table, version: u8, i: u8, earlier: &[Block]) -> Result<Block, YardFault>
    ensures value { result ≡ block_rules version i (block_names earlier.now) (table_view table.now) }
    ensures limits { IfOk result IsBlock }
    ensures new { IfOk result (λ b. has_name (block_names earlier.now) b.name ≡ false) }
{
    let at = At::Block(i);
    known_keys(table, at, block_keys(version))?;
    let name = block_name(value_at(table, Key::Name), at, earlier)?;
    let shape = block_shape(value_at(table, Key::Shape), i)?;
    let turns = turns_of(value_at(table, Key::Turns), i)?;
    let duration = number_at(table, at, Key::Duration, 1, 400)?;
    let release = optional_at(table, at, Key::Release, 0, 399, 0)?;
    let due = number_at(table, at, Key::Due, 0, 399)?;
    let weight = optional_at(table, at, Key::Weight, 0, 1000, 1)?;
    let early = optional_at(table, at, Key::Early, 0, 1000, 0)?;
    Ok(Block {
        name,
        shape,
        turns,
        duration,
        release,
        due,
        weight,
        early,
    })
}

/// Block `i` of a value in a file of this version, after others.
fn block_of(value: &Value, version: u8, i: u8, earlier: &[Block]) -> Result<Block, YardFault>
    ensures value { result ≡ block_of version i (block_names earlier.now) (view value.now) }
    ensures limits { IfOk result IsBlock }
    ensures new { IfOk result (λ b. has_name (block_names earlier.now) b.name ≡ false) }
{
    match value.as_table() {
        Some(table) => table_block(table, version, i, earlier),
        None => Err(YardFault::Kind(At::Top, Key::Block)),
    }
}

/// The yard with the blocks of the values in a file of this version.
pub(crate) fn add_blocks(mut yard: Yard, items: &[Value], version: u8) -> Result<Yard, YardFault>
    requires few { length items.now ≤ 32 }
    requires none { yard.blocks ≡ [] }
    ensures blocks { viewed (λ y. y.blocks) result ≡ blocks_from version 0 [] (items_view items.now) }
    ensures days { IfOk result (λ y. y.days ≡ yard.days) }
    ensures plates { IfOk result (λ y. y.plates ≡ yard.plates) }
    ensures fixed { IfOk result (λ y. y.fixed ≡ yard.fixed) }
{
    let mut i = 0u8;
    for value in items {
        let block = block_of(value, version, i, yard.blocks())?;
        yard.add_block(block);
        i += 1;
    }
    Ok(yard)
}

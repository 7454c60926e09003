//! Reads turns.
ghost use Rattle.std.specs.Prelude.{◌≡◌, IfOk, option_map, true};
ghost use Rattle.std.specs.List.{list_any};
ghost use Rattle.toml.specs.View.{view, items_view};
ghost use Rattle.yard_file.specs.Turns.{listed, some_turn, turns_in, turns_items};

use crate::distinct::{all_integers, read_distinct};
use crate::{At, Key, YardFault};
use plate_calendar::DayFault;
use shape_exact::DayList;
use toml::Value;

/// Whether there is a turn.
fn has_turn(turns: &[bool]) -> bool
    ensures { result ≡ list_any (λ t. t) turns.now }
{
    for turn in turns {
        if *turn {
            return true;
        }
    }
    false
}

/// The turns whose numbers are listed.
fn listed(numbers: &DayList) -> [bool; 4]
    ensures { result ≡ listed numbers.now }
{
    [
        numbers.has(0),
        numbers.has(1),
        numbers.has(2),
        numbers.has(3),
    ]
}

/// The turns, where there is at least one.
fn some_turn(turns: [bool; 4], block: u8) -> Result<[bool; 4], YardFault>
    ensures value { result ≡ some_turn block turns }
    ensures some { IfOk result (λ turns. list_any (λ t. t) turns ≡ true) }
{
    if has_turn(&turns) {
        Ok(turns)
    } else {
        Err(YardFault::Turn(block, 0))
    }
}

/// The turns of an array, none twice and at least one.
fn read_turns(items: &[Value], block: u8) -> Result<[bool; 4], YardFault>
    ensures value { result ≡ turns_items block (items_view items.now) }
    ensures some { IfOk result (λ turns. list_any (λ t. t) turns ≡ true) }
{
    if !all_integers(items) {
        return Err(YardFault::Kind(At::Block(block), Key::Turns));
    }
    match read_distinct(4, items) {
        Ok(numbers) => some_turn(listed(&numbers), block),
        Err(DayFault::Range(i)) => Err(YardFault::Turn(block, i)),
        Err(DayFault::Twice(i)) => Err(YardFault::Turn(block, i)),
    }
}

/// The turns of a block: that of no quarter turn where there is no value.
pub(crate) fn turns_of(value: Option<&Value>, block: u8) -> Result<[bool; 4], YardFault>
    ensures value { result ≡ turns_in block (option_map (λ v. view v.now) value.entry) }
    ensures some { IfOk result (λ turns. list_any (λ t. t) turns ≡ true) }
{
    let Some(value) = value else {
        return Ok([true, false, false, false]);
    };
    match value.as_array() {
        Some(items) => read_turns(items.as_slice(), block),
        None => Err(YardFault::Kind(At::Block(block), Key::Turns)),
    }
}

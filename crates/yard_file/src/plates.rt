//! Reads plates.
ghost use Rattle.std.specs.Prelude.{◌≡◌, ◌≤◌, [], length, IfOk, false};
ghost use Rattle.toml.specs.View.{view, items_view, table_view};
ghost use Rattle.shape_exact.specs.Yards.{IsPlate, has_name, plate_names};
ghost use Rattle.yard_file.specs.Values.{viewed};
ghost use Rattle.yard_file.specs.Plates.{plate_rules, plate_of, plates_from};

use crate::closed::closed_of;
use crate::keys::known_keys;
use crate::names::plate_name;
use crate::value::{number_at, optional_at, value_at};
use crate::{At, Key, YardFault};
use shape_exact::{Plate, Yard};
use toml::{Table, Value};

/// Plate `i` of a table, after others.
#[tactic(auto, unfolding(crate::specs::Plates::plate_rules))]
fn table_plate(table: &Table, days: u16, i: u8, earlier: &[Plate]) -> Result<Plate, YardFault>
    requires { days ≤ 400 }
    ensures value { result ≡ plate_rules days i (plate_names earlier.now) (table_view table.now) }
    ensures limits { IfOk result (IsPlate days) }
    ensures new { IfOk result (λ p. has_name (plate_names earlier.now) p.name ≡ false) }
{
    let at = At::Plate(i);
    known_keys(
        table,
        at,
        &[Key::Name, Key::Width, Key::Height, Key::Pitch, Key::Closed],
    )?;
    let name = plate_name(value_at(table, Key::Name), at, earlier)?;
    let width = number_at(table, at, Key::Width, 1, 400)?;
    let height = number_at(table, at, Key::Height, 1, 400)?;
    let pitch = optional_at(table, at, Key::Pitch, 1, 100, 1)?;
    let closed = closed_of(value_at(table, Key::Closed), days, i)?;
    Ok(Plate {
        name,
        width,
        height,
        pitch,
        closed,
    })
}

/// Plate `i` of a value, after others.
fn plate_of(value: &Value, days: u16, i: u8, earlier: &[Plate]) -> Result<Plate, YardFault>
    requires { days ≤ 400 }
    ensures value { result ≡ plate_of days i (plate_names earlier.now) (view value.now) }
    ensures limits { IfOk result (IsPlate days) }
    ensures new { IfOk result (λ p. has_name (plate_names earlier.now) p.name ≡ false) }
{
    match value.as_table() {
        Some(table) => table_plate(table, days, i, earlier),
        None => Err(YardFault::Kind(At::Top, Key::Plate)),
    }
}

/// The yard with the plates of the values.
pub(crate) fn add_plates(mut yard: Yard, items: &[Value]) -> Result<Yard, YardFault>
    requires few { length items.now ≤ 8 }
    requires none { yard.plates ≡ [] }
    ensures plates { viewed (λ y. y.plates) result ≡ plates_from yard.days 0 [] (items_view items.now) }
    ensures days { IfOk result (λ y. y.days ≡ yard.days) }
    ensures blocks { IfOk result (λ y. y.blocks ≡ yard.blocks) }
    ensures fixed { IfOk result (λ y. y.fixed ≡ yard.fixed) }
{
    let mut i = 0u8;
    for value in items {
        let plate = plate_of(value, yard.days(), i, yard.plates())?;
        yard.add_plate(plate);
        i += 1;
    }
    Ok(yard)
}

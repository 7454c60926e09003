//! Reads fixed pieces.
ghost use Rattle.std.specs.Prelude.{◌≡◌, ◌≤◌, ◌<◌, [], All, IfOk, Some, length, option_map, position, slice_get};
ghost use Rattle.std.specs.Str.{bytes_eq};
ghost use Rattle.toml.specs.View.{view, items_view, table_view};
ghost use Rattle.shape_exact.specs.Shapes.{IsShape};
ghost use Rattle.shape_exact.specs.Yards.{IsPiece, StandApart};
ghost use Rattle.yard_file.specs.Clashes.{first_clash};
ghost use Rattle.yard_file.specs.Pieces.{in_days, in_plate, is_in_plate, no_clash, piece_of, piece_of_keys, piece_rules, pieces_from, plate_in, plate_named};
ghost use Rattle.yard_file.specs.Values.{viewed};

use crate::clashes::first_clash;
use crate::footprints::piece_shape;
use crate::keys::known_keys;
use crate::value::{number_at, optional_at, value_at};
use crate::{At, Key, YardFault};
use shape_exact::{Fixed, Plate, Yard};
use toml::{Table, Value};

/// The place of the first plate that has this name.
fn first_named(plates: &[Plate], name: &[u8]) -> Option<usize>
    ensures { result ≡ position (λ p. bytes_eq p.name name.now) plates.now }
{
    plates.iter().position(|plate| plate.name.bytes() == name)
}

/// The number of the plate that has this name.
fn plate_named(name: &[u8], plates: &[Plate], i: u8) -> Result<u8, YardFault>
    requires { length plates.now ≤ 8 }
    ensures value { result ≡ plate_named plates.now i name.now }
    ensures found { IfOk result (λ number. number < length plates.now) }
{
    match first_named(plates, name) {
        Some(number) => Ok(number as u8),
        None => Err(YardFault::FixedPlate(i)),
    }
}

/// The number of the plate of piece `i`.
fn plate_of(value: Option<&Value>, plates: &[Plate], i: u8) -> Result<u8, YardFault>
    requires { length plates.now ≤ 8 }
    ensures value { result ≡ plate_in plates.now i (option_map (λ v. view v.now) value.entry) }
    ensures found { IfOk result (λ number. number < length plates.now) }
{
    let Some(value) = value else {
        return Err(YardFault::Missing(At::Fixed(i), Key::Plate));
    };
    let Some(text) = value.as_str() else {
        return Err(YardFault::Kind(At::Fixed(i), Key::Plate));
    };
    plate_named(text.as_bytes(), plates, i)
}

/// The piece that the keys of a table give, where no rule of a key is broken.
#[tactic(auto, unfolding(crate::specs::Pieces::piece_of_keys))]
fn piece_of_keys(table: &Table, plates: &[Plate], i: u8) -> Result<Fixed, YardFault>
    requires { length plates.now ≤ 8 }
    ensures value { result ≡ piece_of_keys plates.now i (table_view table.now) }
    ensures near { IfOk result (λ f. (f.x ≤ 400) × (f.y ≤ 400)) }
{
    let at = At::Fixed(i);
    known_keys(
        table,
        at,
        &[
            Key::Plate,
            Key::Shape,
            Key::Turn,
            Key::X,
            Key::Y,
            Key::From,
            Key::To,
        ],
    )?;
    let plate = plate_of(value_at(table, Key::Plate), plates, i)?;
    let shape = piece_shape(value_at(table, Key::Shape), i)?;
    let turn = optional_at(table, at, Key::Turn, 0, 3, 0)?;
    let x = number_at(table, at, Key::X, 0, 400)?;
    let y = number_at(table, at, Key::Y, 0, 400)?;
    let from = number_at(table, at, Key::From, 0, 399)?;
    let to = number_at(table, at, Key::To, 0, 399)?;
    Ok(Fixed {
        plate,
        shape: shape.turned(turn as u8),
        x,
        y,
        from,
        to,
    })
}

/// The piece, where its days are in order and below the number of days.
fn in_days(piece: Fixed, days: u16, i: u8) -> Result<Fixed, YardFault>
    ensures value { result ≡ in_days days i piece }
    ensures days { IfOk result (λ f. (f.from ≤ f.to) × (f.to < days)) }
    ensures same { IfOk result (λ f. f ≡ piece) }
{
    if piece.from <= piece.to && piece.to < days {
        Ok(piece)
    } else {
        Err(YardFault::FixedDays(i))
    }
}

/// Whether the piece lies in the closed rectangle of the plate.
fn is_in_plate(piece: &Fixed, plate: &Plate) -> bool
    ensures { result ≡ is_in_plate piece.now (Some plate.now) }
{
    let (wide, high) = piece.shape.extent();
    u32::from(piece.x) + wide as u32 <= u32::from(plate.width)
        && u32::from(piece.y) + high as u32 <= u32::from(plate.height)
}

/// The piece, where it lies in the closed rectangle of its plate.
fn in_plate(piece: Fixed, plates: &[Plate], i: u8) -> Result<Fixed, YardFault>
    ensures value { result ≡ in_plate plates.now i piece }
    ensures shape { IfOk result (λ f. IsShape f.shape) }
    ensures same { IfOk result (λ f. f ≡ piece) }
{
    let _points = piece.shape.points();
    match plates.get(piece.plate as usize) {
        Some(plate) if is_in_plate(&piece, plate) => Ok(piece),
        _ => Err(YardFault::FixedOutside(i)),
    }
}

/// The piece, where it is apart from the earlier ones.
fn no_clash(piece: Fixed, earlier: &[Fixed], i: u8) -> Result<Fixed, YardFault>
    requires few { length earlier.now ≤ 48 }
    requires earlier { All (λ f. (f.x ≤ 400) × (f.y ≤ 400)) earlier.now }
    requires piece { (piece.x ≤ 400) × (piece.y ≤ 400) }
    ensures value { result ≡ no_clash i piece (first_clash 0 earlier.now piece) }
    ensures apart { IfOk result (λ f. All (λ g. StandApart g f) earlier.now) }
    ensures same { IfOk result (λ f. f ≡ piece) }
{
    match first_clash(earlier, &piece) {
        None => Ok(piece),
        Some(j) => Err(YardFault::FixedClash(j, i)),
    }
}

/// Piece `i` of a table, after others of the yard.
#[tactic(auto, unfolding(crate::specs::Pieces::piece_rules))]
fn table_piece(table: &Table, yard: &Yard, i: u8) -> Result<Fixed, YardFault>
    ensures value { result ≡ piece_rules yard.now.days yard.now.plates i yard.now.fixed (table_view table.now) }
    ensures limits { IfOk result (IsPiece yard.now.days yard.now.plates) }
    ensures apart { IfOk result (λ f. All (λ g. StandApart g f) yard.now.fixed) }
{
    let piece = piece_of_keys(table, yard.plates(), i)?;
    let piece = in_days(piece, yard.days(), i)?;
    let piece = in_plate(piece, yard.plates(), i)?;
    no_clash(piece, yard.fixed(), i)
}

/// Piece `i` of a value, after others of the yard.
fn piece_of(value: &Value, yard: &Yard, i: u8) -> Result<Fixed, YardFault>
    ensures value { result ≡ piece_of yard.now.days yard.now.plates i yard.now.fixed (view value.now) }
    ensures limits { IfOk result (IsPiece yard.now.days yard.now.plates) }
    ensures apart { IfOk result (λ f. All (λ g. StandApart g f) yard.now.fixed) }
{
    match value.as_table() {
        Some(table) => table_piece(table, yard, i),
        None => Err(YardFault::Kind(At::Top, Key::Fixed)),
    }
}

/// The yard with the pieces of the values.
pub(crate) fn add_pieces(mut yard: Yard, items: &[Value]) -> Result<Yard, YardFault>
    requires few { length items.now ≤ 48 }
    requires none { yard.fixed ≡ [] }
    ensures fixed { viewed (λ y. y.fixed) result ≡ pieces_from yard.days yard.plates 0 [] (items_view items.now) }
    ensures days { IfOk result (λ y. y.days ≡ yard.days) }
    ensures plates { IfOk result (λ y. y.plates ≡ yard.plates) }
    ensures blocks { IfOk result (λ y. y.blocks ≡ yard.blocks) }
{
    let mut i = 0u8;
    for value in items {
        let piece = piece_of(value, &yard, i)?;
        yard.add_fixed(piece);
        i += 1;
    }
    Ok(yard)
}

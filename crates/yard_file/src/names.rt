//! Reads names.
ghost use Rattle.std.specs.Prelude.{◌≡◌, IfOk, option_map, false};
ghost use Rattle.toml.specs.View.{view};
ghost use Rattle.shape_exact.specs.Yards.{has_name, plate_names, block_names};
ghost use Rattle.yard_file.specs.Names.{name_in, new_name};

use crate::{At, Key, YardFault};
use shape_exact::{Block, Name, Plate};
use toml::Value;

/// Whether one of the plates has the name.
fn has_plate(plates: &[Plate], name: &[u8]) -> bool
    ensures { result ≡ has_name (plate_names plates.now) name.now }
{
    for plate in plates {
        if plate.name.bytes() == name {
            return true;
        }
    }
    false
}

/// Whether one of the blocks has the name.
fn has_block(blocks: &[Block], name: &[u8]) -> bool
    ensures { result ≡ has_name (block_names blocks.now) name.now }
{
    for block in blocks {
        if block.name.bytes() == name {
            return true;
        }
    }
    false
}

/// The name that the bytes spell, where no earlier plate has it.
fn new_plate_name(bytes: &[u8], at: At, earlier: &[Plate]) -> Result<Name, YardFault>
    ensures value { result ≡ new_name at (plate_names earlier.now) bytes.now }
    ensures new { IfOk result (λ n. has_name (plate_names earlier.now) n ≡ false) }
{
    let Some(name) = Name::read(bytes) else {
        return Err(YardFault::BadName(at));
    };
    if has_plate(earlier, bytes) {
        return Err(YardFault::NameTwice(at));
    }
    Ok(name)
}

/// The name that the bytes spell, where no earlier block has it.
fn new_block_name(bytes: &[u8], at: At, earlier: &[Block]) -> Result<Name, YardFault>
    ensures value { result ≡ new_name at (block_names earlier.now) bytes.now }
    ensures new { IfOk result (λ n. has_name (block_names earlier.now) n ≡ false) }
{
    let Some(name) = Name::read(bytes) else {
        return Err(YardFault::BadName(at));
    };
    if has_block(earlier, bytes) {
        return Err(YardFault::NameTwice(at));
    }
    Ok(name)
}

/// The name of a plate after others.
pub(crate) fn plate_name(
    value: Option<&Value>,
    at: At,
    earlier: &[Plate],
) -> Result<Name, YardFault>
    ensures value { result ≡ name_in at (plate_names earlier.now) (option_map (λ v. view v.now) value.entry) }
    ensures new { IfOk result (λ n. has_name (plate_names earlier.now) n ≡ false) }
{
    let Some(value) = value else {
        return Err(YardFault::Missing(at, Key::Name));
    };
    let Some(text) = value.as_str() else {
        return Err(YardFault::Kind(at, Key::Name));
    };
    new_plate_name(text.as_bytes(), at, earlier)
}

/// The name of a block after others.
pub(crate) fn block_name(
    value: Option<&Value>,
    at: At,
    earlier: &[Block],
) -> Result<Name, YardFault>
    ensures value { result ≡ name_in at (block_names earlier.now) (option_map (λ v. view v.now) value.entry) }
    ensures new { IfOk result (λ n. has_name (block_names earlier.now) n ≡ false) }
{
    let Some(value) = value else {
        return Err(YardFault::Missing(at, Key::Name));
    };
    let Some(text) = value.as_str() else {
        return Err(YardFault::Kind(at, Key::Name));
    };
    new_block_name(text.as_bytes(), at, earlier)
}

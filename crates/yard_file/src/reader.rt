//! Reads the bytes of a yard file.
ghost use Rattle.std.specs.Prelude.{◌≡◌, IfOk};
ghost use Rattle.toml.specs.View.{table_view};
ghost use Rattle.code_table.specs.Sizes.{CanBePlanned};
ghost use Rattle.yard_file.specs.Reads.{rules, sized, version_in, yard_of, Gives};

use crate::arrays::{block_tables, piece_tables, plate_tables};
use crate::blocks::add_blocks;
use crate::document::document_of;
use crate::keys::{known_keys, top_keys};
use crate::pieces::add_pieces;
use crate::plates::add_plates;
use crate::sizes::first_too_many;
use crate::value::{integer_at, number_at};
use crate::{At, Key, YardFault};
use shape_exact::Yard;
use std::alloc::Global;
use toml::Table;

/// The most bytes that a yard's file may have.
pub const MOST_BYTES: u64 = 1_048_576;

/// The version of the file, 1 to 3.
#[tactic(auto, unfolding(crate::specs::Reads::version_in))]
fn version_of(table: &Table) -> Result<u8, YardFault>
    ensures { result ≡ version_in (table_view table.now) }
{
    let number = integer_at(table, At::Top, Key::Version)?;
    match u8::try_from(number) {
        Ok(version) if 1 <= version && version <= 3 => Ok(version),
        _ => Err(YardFault::Version(number)),
    }
}

/// The yard, unless some block has too many placements.
fn sized(yard: Yard) -> Result<Yard, YardFault>
    ensures { result ≡ sized yard }
{
    match first_too_many(&yard) {
        Some(fault) => Err(fault),
        None => Ok(yard),
    }
}

/// The yard of a document, or the first rule that it breaks.
#[tactic(auto, unfolding(crate::specs::Reads::rules))]
fn table_yard(table: &Table) -> Result<Yard, YardFault>
    ensures { result ≡ rules (table_view table.now) }
{
    let version = version_of(table)?;
    known_keys(table, At::Top, top_keys(version))?;
    let days = number_at(table, At::Top, Key::Days, 1, 400)?;
    let plate_items = plate_tables(table)?;
    let block_items = block_tables(table)?;
    let piece_items = piece_tables(table)?;
    let yard = add_plates(Yard::start(days), plate_items)?;
    let yard = add_blocks(yard, block_items, version)?;
    let yard = add_pieces(yard, piece_items)?;
    sized(yard)
}

/// The yard that the bytes spell, which can be planned, or the first rule that they break, in the order of
/// `docs/FORMATS.md`.
#[tactic(auto, unfolding(crate::specs::Reads::yard_of))]
pub fn read_yard(alloc: Global, bytes: &[u8]) -> Result<Yard, YardFault>
    ensures read { Gives result (yard_of bytes.now) }
    ensures planned { IfOk result CanBePlanned }
{
    if bytes.len() as u64 > MOST_BYTES {
        return Err(YardFault::TooLong);
    }
    let table = document_of(alloc, bytes)?;
    table_yard(&table)
}

//! The TOML document of a yard file.
ghost use Rattle.yard_file.specs.Documents.{document, IsDocument};

use crate::YardFault;
use std::alloc::Global;
use toml::Table;

/// The table that the bytes spell.
pub(crate) fn document_of(alloc: Global, bytes: &[u8]) -> Result<Table, YardFault>
    ensures { IsDocument result (document bytes.now) }
{
    match toml::table_from_slice(alloc, bytes) {
        Ok(table) => Ok(table),
        Err(error) => {
            if error.is_memory() {
                Err(YardFault::Memory)
            } else {
                Err(YardFault::NotToml)
            }
        }
    }
}

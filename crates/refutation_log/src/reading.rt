//! Reading a log's text.
ghost use Rattle.std.specs.Prelude.{◌≡◌, List, Ok, IfOk};
ghost use Rattle.refutation_log.specs.declared.record.Record.{Record};
ghost use Rattle.refutation_log.specs.Spelling.{HaveText, log_text};
ghost use Rattle.refutation_log.specs.Reading as spec;

use crate::fault::{LogFault, Unread};
use crate::lines::record_of;
use crate::{Log, Record};
use std::alloc::Global;
use text_parts::cut;

/// The records from line 2 on, up to the line `end`.
fn records_of(alloc: Global, bytes: &[u8]) -> Result<Vec<Record>, LogFault>
    ensures { spec.Gives (λ v. v.items) result (spec.records_from 2 (spec.lines bytes.now)) }
{
    let mut list = Vec::new(alloc);
    let mut rest = bytes;
    let mut number: u64 = 2;
    while let Some((line, more)) = cut(rest, b'\n') {
        if line == b"end".as_slice() {
            return if more.is_empty() {
                Ok(list)
            } else {
                Err(LogFault::Rest)
            };
        }
        match record_of(alloc, line) {
            Ok(record) => list.push(record)?,
            Err(Unread::Form) => return Err(LogFault::Line(number)),
            Err(Unread::Memory) => return Err(LogFault::Memory),
        }
        rest = more;
        number += 1;
    }
    Err(LogFault::NoEnd)
}

fn log_of(alloc: Global, bytes: &[u8]) -> Result<Log, LogFault>
    ensures { spec.Gives (λ log. log) result (spec.log_of bytes.now) }
{
    let Some((first, rest)) = cut(bytes, b'\n') else {
        return Err(LogFault::Head);
    };
    if first != b"log 1".as_slice() {
        return Err(LogFault::Head);
    }
    let list = records_of(alloc, rest)?;
    Ok(Log::from_list(list)?)
}

/// The log that the bytes are the text of.
pub fn read_log(alloc: Global, bytes: &[u8]) -> Result<Log, LogFault>
    // What is read is spelled so.
    ensures found { IfOk result (λ log. HaveText log × (bytes.now ≡ log_text log)) }
    // What is spelled so is read, unless memory runs out.
    ensures only { (log : List Record) → HaveText log → bytes.now ≡ log_text log → spec.Gives (λ r. r) result (Ok log) }
    // Which fault it is.
    ensures exact { spec.Gives (λ log. log) result (spec.log_of bytes.now) }
{
    log_of(alloc, bytes)
}

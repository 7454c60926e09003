//! Lists of literals and of citations.
ghost use Rattle.std.specs.Prelude.{◌≡◌, ◌≤◌, ◌<◌, ◌^◌, IfOk};
ghost use Rattle.text_parts.specs.Parts.{number_of as number_of_text};
ghost use Rattle.text_parts.specs.Parts.{field};
ghost use Rattle.refutation_log.specs.Reading as spec;

use crate::Cites;
use crate::fault::Unread;
use code_table::MOST_PLACEMENTS;
use plan_rule::{Literal, PlanBox};
use std::alloc::Global;
use text_parts::{cut, number_of};

/// The number of at most `limit` that the whole text is.
pub(crate) fn number(limit: u64, text: &[u8]) -> Result<u64, Unread>
    requires { limit < 10 ^ 18 }
    ensures reads { spec.Reads (λ n. n) result (number_of_text limit text.now) }
    ensures within { IfOk result (λ n. n ≤ limit) }
{
    match number_of(limit, text) {
        Some(number) => Ok(number),
        None => Err(Unread::Form),
    }
}

/// The number before the first such byte, and what follows the byte.
pub(crate) fn number_before(limit: u64, sep: u8, text: &[u8]) -> Result<(u64, &[u8]), Unread>
    requires { limit < 10 ^ 18 }
    ensures reads { spec.Reads (λ x. (x.0, x.1.now)) result (field (number_of_text limit) sep text.now) }
    ensures within { IfOk result (λ x. x.0 ≤ limit) }
{
    match cut(text, sep) {
        Some((front, rest)) => Ok((number(limit, front)?, rest)),
        None => Err(Unread::Form),
    }
}

#[tactic(auto, unfolding(crate::specs::Reading::span_of))]
fn span_of(block: u8, text: &[u8]) -> Result<Literal, Unread>
    ensures reads { spec.Reads (λ x. x) result (spec.span_of block text.now) }
    ensures block { IfOk result (λ x. x.block ≡ block) }
{
    match cut(text, b'.') {
        None => {
            let lo = number(MOST_PLACEMENTS - 1, text)? as u32;
            Ok(Literal {
                block,
                lo,
                hi: lo + 1,
            })
        }
        Some((lo, [b'.', hi @ ..])) => {
            let lo = number(MOST_PLACEMENTS, lo)? as u32;
            let hi = number(MOST_PLACEMENTS, hi)? as u32;
            if lo + 2 <= hi {
                Ok(Literal { block, lo, hi })
            } else {
                Err(Unread::Form)
            }
        }
        Some(_) => Err(Unread::Form),
    }
}

#[tactic(auto, unfolding(crate::specs::Reading::literal_of))]
fn literal_of(text: &[u8]) -> Result<Literal, Unread>
    ensures reads { spec.Reads (λ x. x) result (spec.literal_of text.now) }
    ensures block { IfOk result (λ x. x.block ≤ 31) }
{
    let (block, span) = number_before(31, b':', text)?;
    span_of(block as u8, span)
}

/// The literal that the piece is, where its block is at least `least`.
fn literal_from(least: u8, piece: &[u8]) -> Result<Literal, Unread>
    ensures reads { spec.Reads (λ x. x) result (spec.next_of (λ l. l.block) spec.literal_of least piece.now) }
    ensures block { IfOk result (λ x. x.block ≤ 31) }
{
    let literal = literal_of(piece)?;
    if literal.block < least {
        return Err(Unread::Form);
    }
    Ok(literal)
}

#[tactic(auto, unfolding(crate::specs::Reading::side_of))]
/// The literals of a side, in their order.
fn literals_of(alloc: Global, text: &[u8]) -> Result<Vec<Literal>, Unread>
    ensures { spec.Reads (λ v. v.items) result (spec.side_of text.now) }
{
    let mut list = Vec::new(alloc);
    if text == b"-".as_slice() {
        return Ok(list);
    }
    let mut rest = text;
    let mut least: u8 = 0;
    while let Some((piece, more)) = cut(rest, b',') {
        let literal = literal_from(least, piece)?;
        list.push(literal)?;
        least = literal.block + 1;
        rest = more;
    }
    let last = literal_from(least, rest)?;
    list.push(last)?;
    Ok(list)
}

/// The citation that the piece is, where it is at least `least`.
#[tactic(auto, unfolding(crate::specs::Reading::cite_of))]
fn cite_from(least: u64, piece: &[u8]) -> Result<u64, Unread>
    ensures reads { spec.Reads (λ x. x) result (spec.next_of (λ k. k) spec.cite_of least piece.now) }
    ensures within { IfOk result (λ x. x ≤ 999999999999999999) }
{
    let cite = number(999_999_999_999_999_999, piece)?;
    if cite < least {
        return Err(Unread::Form);
    }
    Ok(cite)
}

#[tactic(auto, unfolding(crate::specs::Reading::cites_of))]
/// The citations, in their order.
fn numbers_of(alloc: Global, text: &[u8]) -> Result<Vec<u64>, Unread>
    ensures { spec.Reads (λ v. v.items) result (spec.cites_of text.now) }
{
    let mut list = Vec::new(alloc);
    if text == b"-".as_slice() {
        return Ok(list);
    }
    let mut rest = text;
    let mut least: u64 = 0;
    while let Some((piece, more)) = cut(rest, b',') {
        let cite = cite_from(least, piece)?;
        list.push(cite)?;
        least = cite + 1;
        rest = more;
    }
    let last = cite_from(least, rest)?;
    list.push(last)?;
    Ok(list)
}

/// The side that the whole text is.
pub(crate) fn side_of(alloc: Global, text: &[u8]) -> Result<PlanBox, Unread>
    ensures { spec.Reads (λ x. x) result (spec.side_of text.now) }
{
    let list = literals_of(alloc, text)?;
    Ok(PlanBox::from_list(list))
}

/// The citations that the whole text is.
pub(crate) fn cites_of(alloc: Global, text: &[u8]) -> Result<Cites, Unread>
    ensures { spec.Reads (λ x. x) result (spec.cites_of text.now) }
{
    let list = numbers_of(alloc, text)?;
    Ok(Cites::from_list(list))
}

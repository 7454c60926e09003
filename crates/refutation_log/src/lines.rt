//! One line of a log's text.
ghost use Rattle.std.specs.Prelude.{◌≡◌};
ghost use Rattle.text_parts.specs.Parts.{field};
ghost use Rattle.refutation_log.specs.Reading as spec;

use crate::Record;
use crate::fault::Unread;
use crate::lists::{cites_of, number, number_before, side_of};
use code_table::MOST_PLACEMENTS;
use plan_rule::PlanBox;
use std::alloc::Global;
use text_parts::cut;

fn side_before(alloc: Global, sep: u8, text: &[u8]) -> Result<(PlanBox, &[u8]), Unread>
    ensures { spec.Reads (λ x. (x.0, x.1.now)) result (field spec.side_of sep text.now) }
{
    match cut(text, sep) {
        Some((front, rest)) => Ok((side_of(alloc, front)?, rest)),
        None => Err(Unread::Form),
    }
}

#[tactic(auto, unfolding(crate::specs::Reading::branch_of))]
fn branch_of(alloc: Global, text: &[u8]) -> Result<Record, Unread>
    ensures { spec.Reads (λ x. x) result (spec.branch_of text.now) }
{
    let (block, rest) = number_before(31, b' ', text)?;
    let (lo, rest) = number_before(MOST_PLACEMENTS, b' ', rest)?;
    let (hi, rest) = number_before(MOST_PLACEMENTS, b' ', rest)?;
    let (side, rest) = side_before(alloc, b' ', rest)?;
    let cites = cites_of(alloc, rest)?;
    if hi < lo {
        return Err(Unread::Form);
    }
    Ok(Record::Branch {
        block: block as u8,
        lo: lo as u32,
        hi: hi as u32,
        side,
        cites,
    })
}

#[tactic(auto, unfolding(crate::specs::Reading::fit_of))]
fn fit_of(alloc: Global, text: &[u8]) -> Result<Record, Unread>
    ensures { spec.Reads (λ x. x) result (spec.fit_of text.now) }
{
    let side = side_of(alloc, text)?;
    Ok(Record::Fit { side })
}

#[tactic(auto, unfolding(crate::specs::Reading::energy_of))]
fn energy_of(alloc: Global, text: &[u8]) -> Result<Record, Unread>
    ensures { spec.Reads (λ x. x) result (spec.energy_of text.now) }
{
    let (from, rest) = number_before(399, b' ', text)?;
    let (to, rest) = number_before(399, b' ', rest)?;
    let side = side_of(alloc, rest)?;
    if to < from {
        return Err(Unread::Form);
    }
    Ok(Record::Energy {
        from: from as u16,
        to: to as u16,
        side,
    })
}

/// The record that the line is, without its line feed.
#[tactic(auto, unfolding(crate::specs::Reading::record_of))]
pub(crate) fn record_of(alloc: Global, line: &[u8]) -> Result<Record, Unread>
    ensures { spec.Reads (λ x. x) result (spec.record_of line.now) }
{
    match cut(line, b' ') {
        Some((b"branch", rest)) => branch_of(alloc, rest),
        Some((b"fit", rest)) => fit_of(alloc, rest),
        Some((b"energy", rest)) => energy_of(alloc, rest),
        _ => Err(Unread::Form),
    }
}

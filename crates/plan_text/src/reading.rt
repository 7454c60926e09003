//! Reading a plan's text.
ghost use Rattle.std.specs.Prelude.{◌≡◌, ℕ, List, Option, Ok, IfOk, IfSome};
ghost use Rattle.plan_rule.specs.Plans.{IsPlan};
ghost use Rattle.plan_rule.specs.Yards.{choices};
ghost use Rattle.plan_text.specs.Texts.{plan_text};
ghost use Rattle.plan_text.specs.Reading as spec;

use crate::fault::PlanFault;
use crate::figures::check_figure;
use crate::form::total_in;
use crate::heads::head;
use crate::told::code_of_line;
use code_table::Codes;
use plan_rule::{Plan, block_count, total};
use std::alloc::Global;
use text_parts::cut;

/// The codes that the lines from line 2 on tell, one for each block, and the bytes after these lines.
fn rows_of<'a>(
    alloc: Global,
    codes: &Codes,
    bytes: &'a [u8],
) -> Result<(Vec<u32>, &'a [u8]), PlanFault>
    ensures { spec.Gives (λ x. (x.0.items, spec.lines x.1.now)) result
        (spec.rows_of codes.now codes.now.blocks 2 (spec.lines bytes.now)) }
{
    let blocks = codes.yard().blocks();
    let mut list = Vec::new(alloc);
    let mut rest = bytes;
    for block in 0..block_count(codes) {
        let number = u64::from(block) + 2;
        let Some((line, more)) = cut(rest, b'\n') else {
            return Err(PlanFault::Line(number));
        };
        let of = &blocks[block as usize];
        let code = code_of_line(codes, block, of, number, line)?;
        list.push(code)?;
        rest = more;
    }
    Ok((list, rest))
}

/// That line `number`, with which the bytes begin, tells this total and is the last.
fn close(number: u64, is: u32, bytes: &[u8]) -> Result<(), PlanFault>
    ensures { result ≡ spec.total_of number is (spec.lines bytes.now) }
{
    let Some((line, rest)) = cut(bytes, b'\n') else {
        return Err(PlanFault::Line(number));
    };
    let Some(told) = total_in(line) else {
        return Err(PlanFault::Line(number));
    };
    check_figure(number, told, is)?;
    if !rest.is_empty() {
        return Err(PlanFault::Rest);
    }
    Ok(())
}

/// The plan whose lines after the head are the bytes.
fn planned(alloc: Global, codes: &Codes, bytes: &[u8]) -> Result<Plan, PlanFault>
    ensures { spec.Gives (λ plan. plan) result (spec.planned codes.now (spec.lines bytes.now)) }
{
    let (list, rest) = rows_of(alloc, codes, bytes)?;
    let plan = Plan::new(alloc, codes, list.as_slice())?;
    close(u64::from(block_count(codes)) + 2, total(codes, &plan), rest)?;
    Ok(plan)
}

/// The plan, or none, that the bytes are read as.
fn plan_of(alloc: Global, codes: &Codes, bytes: &[u8]) -> Result<Option<Plan>, PlanFault>
    ensures { spec.Gives (λ t. t) result (spec.plan_of codes.now bytes.now) }
{
    let Some((first, rest)) = cut(bytes, b'\n') else {
        return Err(PlanFault::Line(1));
    };
    if first == b"no plan".as_slice() {
        return if rest.is_empty() {
            Ok(None)
        } else {
            Err(PlanFault::Rest)
        };
    }
    if first != head(codes.yard()).as_bytes() {
        return Err(PlanFault::Line(1));
    }
    let plan = planned(alloc, codes, rest)?;
    Ok(Some(plan))
}

/// The plan that the bytes are the text of, or None where they are the text of none.
pub fn read_plan(alloc: Global, codes: &Codes, bytes: &[u8]) -> Result<Option<Plan>, PlanFault>
    // What is read is a plan, or none, and is spelled so.
    ensures found { IfOk result (λ t. IfSome t (IsPlan (choices codes.now)) × (bytes.now ≡ plan_text codes.now t)) }
    // What is spelled so is read, unless memory runs out.
    ensures only { (t : Option (List ℕ)) → IfSome t (IsPlan (choices codes.now)) → bytes.now ≡ plan_text codes.now t
        → spec.Gives (λ r. r) result (Ok t) }
    // Which fault it is.
    ensures exact { spec.Gives (λ t. t) result (spec.plan_of codes.now bytes.now) }
{
    codes.limits();
    plan_of(alloc, codes, bytes)
}

//! The text of a plan.
ghost use Rattle.std.specs.Prelude.{◌≡◌, ◌<◌, ◌++◌, IfOk, IfSome, OnOk};
ghost use Rattle.std.specs.Option.{option_map};
ghost use Rattle.std.specs.String.{string_bytes};
ghost use Rattle.plan_rule.specs.Choices.{blocks};
ghost use Rattle.plan_rule.specs.Plans.{IsPlan};
ghost use Rattle.plan_rule.specs.Yards.{choices};
ghost use Rattle.plan_text.specs.Texts.{plan_text, rows_text, row_text};

use crate::heads::{head, tells_early};
use crate::rows::put_row;
use code_table::Codes;
use plan_rule::{Plan, block_count, total};
use shape_exact::NoMemory;
use std::alloc::{AllocError, Global};

/// Writes the line of a block at its code in the plan.
fn put_block(out: &mut String, codes: &Codes, plan: &Plan, block: u8) -> Result<(), AllocError>
    requires plan { IsPlan (choices codes.now) plan.now }
    requires block { block < blocks (choices codes.now) }
    ensures { OnOk result (string_bytes out.new ≡ string_bytes out.old ++ row_text codes.now plan.now block) }
{
    let yard = codes.yard();
    let place = codes.place(block, plan.codes()[block as usize]);
    let of = &yard.blocks()[block as usize];
    let plate = &yard.plates()[place.plate as usize];
    put_row(out, tells_early(yard), &of.name, of.due, &plate.name, place)
}

/// Writes the lines of the blocks, in file order.
fn put_rows(out: &mut String, codes: &Codes, plan: &Plan) -> Result<(), AllocError>
    requires { IsPlan (choices codes.now) plan.now }
    ensures { OnOk result (string_bytes out.new ≡ string_bytes out.old ++ rows_text codes.now plan.now) }
{
    for block in 0..block_count(codes) {
        put_block(out, codes, plan, block)?;
    }
    Ok(())
}

/// Writes the head, the lines of the blocks and the total.
#[tactic(auto, unfolding(crate::specs::Texts::plan_text))]
fn put_plan(out: &mut String, codes: &Codes, plan: &Plan) -> Result<(), AllocError>
    requires { IsPlan (choices codes.now) plan.now }
    ensures { OnOk result (string_bytes out.new ≡ string_bytes out.old ++ plan_text codes.now (Some plan.now)) }
{
    let head = head(codes.yard());
    write!(out, "{head}\n")?;
    put_rows(out, codes, plan)?;
    let total = total(codes, plan);
    write!(out, "total {total}\n")
}

/// The text of the plan, or of none.
#[tactic(auto, unfolding(crate::specs::Texts::plan_text))]
pub fn print_plan(alloc: Global, codes: &Codes, plan: Option<&Plan>) -> Result<Vec<u8>, NoMemory>
    requires { IfSome plan (λ p. IsPlan (choices codes.now) p.now) }
    ensures { IfOk result (λ text. text.items ≡ plan_text codes.now (option_map (λ p. p.now) plan.entry)) }
{
    let mut out = String::new(alloc);
    match plan {
        Some(plan) => put_plan(&mut out, codes, plan)?,
        None => out.push_str("no plan\n")?,
    }
    Ok(out.into_bytes())
}

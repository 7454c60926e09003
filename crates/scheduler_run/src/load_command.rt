//! The command `load SEED BLOCKS WORKERS`.
ghost use Rattle.std.specs.Prelude.{◌≡◌, ◌<◌, ◌≤◌, ◌^◌, ◌++◌, Some, IfOk, IfSome, OnOk, option_map};
ghost use Rattle.std.specs.String.{string_bytes};
ghost use Rattle.code_table.specs.Sizes.{CanBePlanned};
ghost use Rattle.plan_rule.specs.Plans.{IsPlan};
ghost use Rattle.plan_rule.specs.Yards.{choices};
ghost use Rattle.yard_generator.specs.Yards.{drawn_yard};
ghost use Rattle.scheduler_run.specs.Outcomes.{outcome_of};
ghost use Rattle.scheduler_run.specs.LoadAnswers.{all_placements, figure_line, figures_text, summary, SumsUp, LoadsDrawn};

use crate::reply::Reply;
use branch_workers::crew;
use code_table::Codes;
use plan_rule::{Plan, block_count, path, total};
use shape_exact::{NoMemory, Yard};
use std::alloc::{AllocError, Global};
use std::thread::Threads;
use yard_generator::drawn_yard;
use yard_io::Gate;

/// How often a job is halved at most.
const SPLIT: u8 = 6;

/// How many placements the blocks have together.
fn count_placements(codes: &Codes) -> u32
    ensures { result ≡ all_placements codes.now }
{
    let mut sum = 0;
    for block in 0..block_count(codes) {
        sum += codes.count(block);
    }
    sum
}

/// Writes a line of a word and a number.
fn put_figure(out: &mut String, word: &str, number: u32) -> Result<(), AllocError>
    ensures { OnOk result (string_bytes out.new ≡ string_bytes out.old ++ figure_line word.now number) }
{
    write!(out, "{word} {number}\n")
}

/// Writes the lines of a plan.
fn put_plan(out: &mut String, codes: &Codes, plan: &Plan) -> Result<(), AllocError>
    requires { IsPlan (choices codes.now) plan.now }
    ensures { OnOk result (string_bytes out.new ≡ string_bytes out.old ++ figures_text codes.now (Some plan.now)) }
{
    put_figure(out, "placements", count_placements(codes))?;
    put_figure(out, "total", total(codes, plan))?;
    put_figure(out, "path", path(codes, plan))
}

/// Writes the lines of a plan, or that there is none.
fn put_best(out: &mut String, codes: &Codes, best: Option<&Plan>) -> Result<(), AllocError>
    requires { IfSome best (λ p. IsPlan (choices codes.now) p.now) }
    ensures { OnOk result (string_bytes out.new
        ≡ string_bytes out.old ++ figures_text codes.now (option_map (λ p. p.now) best.entry)) }
{
    match best {
        Some(plan) => put_plan(out, codes, plan),
        None => out.push_str("no plan\n"),
    }
}

/// The summary of the yard that was drawn from the seed, with its best plan or none.
fn sum_up(
    alloc: Global,
    codes: &Codes,
    seed: u32,
    blocks: u8,
    best: Option<&Plan>,
) -> Result<Vec<u8>, AllocError>
    requires { IfSome best (λ p. IsPlan (choices codes.now) p.now) }
    ensures { IfOk result (λ text. text.items
        ≡ summary seed blocks codes.now (option_map (λ p. p.now) best.entry)) }
{
    let mut out = String::new(alloc);
    write!(out, "load {seed} {blocks}\n")?;
    put_best(&mut out, codes, best)?;
    Ok(out.into_bytes())
}

/// The reply to a yard: the summary of its best plan, or that there is none.
fn reply_to_yard<'a, R: Threads + Sync, G: Gate + Sync>(
    rt: &R,
    alloc: Global,
    gate: &G,
    yard: &Yard,
    seed: u32,
    blocks: u8,
    workers: u32,
) -> Result<Reply<'a>, NoMemory>
    requires yard { CanBePlanned yard.now }
    requires workers { (1 ≤ workers) × (workers ≤ 16) }
    ensures { IfOk result (λ reply. SumsUp seed blocks yard.now (outcome_of reply)) }
{
    let codes = Codes::new(alloc, yard)?;
    let planned = crew(rt, alloc, &codes, workers, SPLIT, gate)?;
    Ok(Reply {
        status: if planned.best.is_some() { 0 } else { 3 },
        made: None,
        said: sum_up(alloc, &codes, seed, blocks, planned.best.as_ref())?,
    })
}

/// The reply to a seed and a number of blocks: the summary of the yard that is drawn from them.
pub(crate) fn reply_to_load<'a, R: Threads + Sync, G: Gate + Sync>(
    rt: &R,
    alloc: Global,
    gate: &G,
    seed: u32,
    blocks: u8,
    workers: u32,
) -> Result<Reply<'a>, NoMemory>
    requires seed { seed < 2 ^ 31 }
    requires blocks { (1 ≤ blocks) × (blocks ≤ 32) }
    requires workers { (1 ≤ workers) × (workers ≤ 16) }
    ensures { IfOk result (λ reply. LoadsDrawn seed blocks (outcome_of reply)) }
{
    let yard = drawn_yard(alloc, seed, blocks)?;
    reply_to_yard(rt, alloc, gate, &yard, seed, blocks, workers)
}

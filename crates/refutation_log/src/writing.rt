//! Writing a log's text.
ghost use Rattle.std.specs.Prelude.{◌≡◌, ◌+◌, ◌<◌, ◌++◌, ◌∷◌, [], ◌==◌, length, All, IfOk, OnOk};
ghost use Rattle.std.specs.String.{string_bytes};
ghost use Rattle.std.specs.List.{flat_map};
ghost use Rattle.std.specs.Fmt.{decimal};
ghost use Rattle.refutation_log.specs.Spelling as spec;

use crate::{Log, Record};
use plan_rule::Literal;
use shape_exact::NoMemory;
use std::alloc::{AllocError, Global};
use std::fmt::Write;

fn put_span(out: &mut String, lo: u32, hi: u32) -> Result<(), AllocError>
    requires { lo < hi }
    ensures { OnOk result (string_bytes out.new ≡ string_bytes out.old ++ spec.span_text lo hi) }
{
    if hi - lo == 1 {
        write!(out, "{lo}")
    } else {
        write!(out, "{lo}..{hi}")
    }
}

#[tactic(auto, unfolding(crate::specs::Spelling::literal_text))]
fn put_literal(out: &mut String, literal: Literal) -> Result<(), AllocError>
    requires { literal.lo < literal.hi }
    ensures { OnOk result (string_bytes out.new ≡ string_bytes out.old ++ spec.literal_text literal) }
{
    let block = literal.block;
    write!(out, "{block}:")?;
    put_span(out, literal.lo, literal.hi)
}

/// Each literal after a comma.
fn put_more_literals(out: &mut String, literals: &[Literal]) -> Result<(), AllocError>
    requires { All (λ l. l.lo < l.hi) literals.now }
    ensures { OnOk result (string_bytes out.new ≡ string_bytes out.old ++ flat_map (λ l. 44 ∷ spec.literal_text l) literals.now) }
{
    for literal in literals {
        out.push_str(",")?;
        put_literal(out, *literal)?;
    }
    Ok(())
}

fn put_side(out: &mut String, side: &[Literal]) -> Result<(), AllocError>
    requires { All (λ l. l.lo < l.hi) side.now }
    ensures { OnOk result (string_bytes out.new ≡ string_bytes out.old ++ spec.side_text side.now) }
{
    match side {
        [] => out.push_str("-"),
        [first, rest @ ..] => {
            put_literal(out, *first)?;
            put_more_literals(out, rest)
        }
    }
}

/// Each citation after a comma.
fn put_more_cites(out: &mut String, cites: &[u64]) -> Result<(), AllocError>
    ensures { OnOk result (string_bytes out.new ≡ string_bytes out.old ++ flat_map (λ k. 44 ∷ decimal k) cites.now) }
{
    for cite in cites {
        write!(out, ",{cite}")?;
    }
    Ok(())
}

fn put_cites(out: &mut String, cites: &[u64]) -> Result<(), AllocError>
    ensures { OnOk result (string_bytes out.new ≡ string_bytes out.old ++ spec.cites_text cites.now) }
{
    match cites {
        [] => out.push_str("-"),
        [first, rest @ ..] => {
            write!(out, "{first}")?;
            put_more_cites(out, rest)
        }
    }
}

#[tactic(auto, unfolding(crate::specs::Spelling::record_text))]
fn put_record(out: &mut String, entry: &Record) -> Result<(), AllocError>
    requires { spec.HasText entry.now }
    ensures { OnOk result (string_bytes out.new ≡ string_bytes out.old ++ spec.line_text entry.now) }
{
    match entry {
        Record::Branch {
            block,
            lo,
            hi,
            side,
            cites,
        } => {
            write!(out, "branch {block} {lo} {hi} ")?;
            put_side(out, side.literals())?;
            out.push_str(" ")?;
            put_cites(out, cites.list())?;
        }
        Record::Fit { side } => {
            out.push_str("fit ")?;
            put_side(out, side.literals())?;
        }
        Record::Energy { from, to, side } => {
            write!(out, "energy {from} {to} ")?;
            put_side(out, side.literals())?;
        }
    }
    out.push_str("\n")
}

/// The one text of the log.
pub fn write_log(alloc: Global, log: &Log) -> Result<Vec<u8>, NoMemory>
    requires { spec.HaveText log.now }
    ensures { IfOk result (λ v. v.items ≡ spec.log_text log.now) }
{
    let mut out = String::new(alloc);
    out.push_str("log 1\n")?;
    for entry in log.records() {
        put_record(&mut out, entry)?;
    }
    out.push_str("end\n")?;
    Ok(out.into_bytes())
}

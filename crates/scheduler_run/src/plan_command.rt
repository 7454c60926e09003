//! The command `plan YARD LOG WORKERS SPLIT`.
ghost use Rattle.std.specs.Prelude.{◌≡◌, ◌≤◌, IfOk};
ghost use Rattle.code_table.specs.Sizes.{CanBePlanned};
ghost use Rattle.yard_io.specs.Desk.{Same, HasCause};
ghost use Rattle.scheduler_run.specs.YardTexts.{yard_in};
ghost use Rattle.scheduler_run.specs.Outcomes.{outcome_of};
ghost use Rattle.scheduler_run.specs.PlanAnswers.{AnswersFile, AnswersYard, PlansYard};

use crate::reply::{Made, Reply, refusal};
use crate::yard_text::{YardText, read_yard_text, yard_of_text};
use branch_workers::crew;
use code_table::Codes;
use plan_text::print_plan;
use refutation_log::write_log;
use shape_exact::{NoMemory, Yard};
use std::alloc::Global;
use std::thread::Threads;
use yard_file::YardFault;
use yard_io::{Desk, Gate, Trouble};

/// The reply to a yard: its best plan, or that there is none, and the log of it as the file of this name.
fn reply_to_yard<'a, R: Threads + Sync, G: Gate + Sync>(
    rt: &R,
    alloc: Global,
    gate: &G,
    yard: &Yard,
    workers: u32,
    split: u8,
    log: &'a str,
) -> Result<Reply<'a>, NoMemory>
    requires yard { CanBePlanned yard.now }
    requires workers { (1 ≤ workers) × (workers ≤ 16) }
    requires split { split ≤ 20 }
    ensures { IfOk result (λ reply. PlansYard yard.now log.now (outcome_of reply)) }
{
    let codes = Codes::new(alloc, yard)?;
    let planned = crew(rt, alloc, &codes, workers, split, gate)?;
    let made = Made {
        name: log,
        bytes: write_log(alloc, &planned.log)?,
    };
    Ok(Reply {
        status: if planned.best.is_some() { 0 } else { 3 },
        made: Some(made),
        said: print_plan(alloc, &codes, planned.best.as_ref())?,
    })
}

/// The reply to the text of a yard's file.
fn reply_to_text<'a, R: Threads + Sync, G: Gate + Sync>(
    rt: &R,
    alloc: Global,
    gate: &G,
    text: &YardText,
    workers: u32,
    split: u8,
    log: &'a str,
) -> Result<Reply<'a>, NoMemory>
    requires workers { (1 ≤ workers) × (workers ≤ 16) }
    requires split { split ≤ 20 }
    ensures { IfOk result (λ reply. AnswersYard (yard_in text.now) log.now (outcome_of reply)) }
{
    match yard_of_text(alloc, text) {
        Ok(yard) => reply_to_yard(rt, alloc, gate, &yard, workers, split, log),
        Err(YardFault::Memory) => Err(NoMemory),
        Err(fault) => Ok(refusal(fault.line(alloc)?)),
    }
}

/// The reply to the file of the yard's name, with the log as the file of the log's name. A yard that is too long is
/// refused unread.
#[tactic(auto, using(crate::proofs::FileLaws::answers_file))]
pub(crate) fn reply_to_plan<'a, R: Threads + Sync, D: Desk, G: Gate + Sync>(
    rt: &R,
    alloc: Global,
    gate: &G,
    yard: &str,
    workers: u32,
    split: u8,
    log: &'a str,
    desk: &mut D,
) -> Result<Reply<'a>, Trouble>
    requires workers { (1 ≤ workers) × (workers ≤ 16) }
    requires split { split ≤ 20 }
    ensures answer { IfOk result (λ reply.
        AnswersFile (D.file desk.old yard.now) log.now (outcome_of reply)) }
    ensures same { Same (D.file desk.old) (D.said desk.old) (D.file desk.new) (D.said desk.new) }
    ensures tells { D.tells desk.new ≡ D.tells desk.old }
    ensures cause { HasCause (D.read_faults desk.old) (D.read_faults desk.new) result }
    ensures writes { D.write_faults desk.old ≤ D.write_faults desk.new }
{
    let text = read_yard_text(alloc, desk, yard)?;
    Ok(reply_to_text(rt, alloc, gate, &text, workers, split, log)?)
}

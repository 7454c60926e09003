//! The command `check YARD PLAN LOG`.
ghost use Rattle.std.specs.Prelude.{◌≡◌, ◌≤◌, Ok, IfOk, IfSome, option_map};
ghost use Rattle.code_table.specs.Sizes.{CanBePlanned};
ghost use Rattle.yard_io.specs.Desk.{Same, HasCause};
ghost use Rattle.plan_rule.specs.Plans.{IsBest, IsPlan};
ghost use Rattle.plan_rule.specs.Yards.{choices};
ghost use Rattle.plan_text.specs.Reading.{plan_of};
ghost use Rattle.refutation_log.specs.Reading.{log_of};
ghost use Rattle.scheduler_run.specs.Outcomes.{outcome_of};
ghost use Rattle.scheduler_run.specs.YardTexts.{yard_in, IsTextOf};
ghost use Rattle.scheduler_run.specs.CheckAnswers.{ChecksFiles, ChecksYard, ChecksPlan, ChecksLog, Judges, IsBestText, HaveBest};

use crate::reply::{Reply, refusal};
use crate::yard_text::{YardText, read_yard_text, yard_of_text};
use code_table::Codes;
use log_checker::{Verdict, check};
use plan_rule::Plan;
use plan_text::{PlanFault, read_plan};
use refutation_log::{Log, LogFault, read_log};
use shape_exact::{NoMemory, Yard};
use std::alloc::Global;
use yard_file::YardFault;
use yard_io::{Desk, Trouble, read_file};

/// The texts of the three files.
#[derive(Drop)]
struct Texts {
    yard: YardText,
    plan: Vec<u8>,
    log: Vec<u8>,
}

/// The reply to a plan, or to none, and a log: the checker's verdict.
fn judge<'a>(
    alloc: Global,
    codes: &Codes,
    plan: Option<&Plan>,
    log: &Log,
) -> Result<Reply<'a>, NoMemory>
    requires { IfSome plan (λ p. IsPlan (choices codes.now) p.now) }
    ensures answer { IfOk result (λ reply.
        Judges codes.now (option_map (λ p. p.now) plan.entry) log.now (outcome_of reply)) }
    ensures best { IfOk result (λ reply.
        reply.status ≡ 0 → IsBest (choices codes.now) (option_map (λ p. p.now) plan.entry)) }
{
    match check(alloc, codes, plan, log)? {
        Verdict::Accepted => Ok(Reply {
            status: 0,
            made: None,
            said: Vec::from_slice(alloc, b"certified\n")?,
        }),
        Verdict::Refused(refused) => Ok(Reply {
            status: 7,
            made: None,
            said: refused.line(alloc)?,
        }),
    }
}

/// The reply to a plan, or to none, and a log's bytes.
fn judge_log<'a>(
    alloc: Global,
    codes: &Codes,
    plan: Option<&Plan>,
    log: &[u8],
) -> Result<Reply<'a>, NoMemory>
    requires { IfSome plan (λ p. IsPlan (choices codes.now) p.now) }
    ensures answer { IfOk result (λ reply.
        ChecksLog codes.now (option_map (λ p. p.now) plan.entry) (log_of log.now) (outcome_of reply)) }
    ensures best { IfOk result (λ reply.
        reply.status ≡ 0 → IsBest (choices codes.now) (option_map (λ p. p.now) plan.entry)) }
{
    match read_log(alloc, log) {
        Ok(log) => judge(alloc, codes, plan, &log),
        Err(LogFault::Memory) => Err(NoMemory),
        Err(fault) => Ok(refusal(fault.line(alloc)?)),
    }
}

/// The reply to the bytes of a plan and of a log.
fn judge_plan<'a>(
    alloc: Global,
    codes: &Codes,
    plan: &[u8],
    log: &[u8],
) -> Result<Reply<'a>, NoMemory>
    ensures answer { IfOk result (λ reply.
        ChecksPlan codes.now (plan_of codes.now plan.now) log.now (outcome_of reply)) }
    ensures best { IfOk result (λ reply. reply.status ≡ 0 → IsBestText (Ok codes.now) plan.now) }
{
    match read_plan(alloc, codes, plan) {
        Ok(plan) => judge_log(alloc, codes, plan.as_ref(), log),
        Err(PlanFault::Memory) => Err(NoMemory),
        Err(fault) => Ok(refusal(fault.line(alloc)?)),
    }
}

/// The reply to a yard and the bytes of a plan and of a log.
fn judge_yard<'a>(
    alloc: Global,
    yard: &Yard,
    plan: &[u8],
    log: &[u8],
) -> Result<Reply<'a>, NoMemory>
    requires { CanBePlanned yard.now }
    ensures answer { IfOk result (λ reply.
        ChecksPlan yard.now (plan_of yard.now plan.now) log.now (outcome_of reply)) }
    ensures best { IfOk result (λ reply. reply.status ≡ 0 → IsBestText (Ok yard.now) plan.now) }
{
    let codes = Codes::new(alloc, yard)?;
    judge_plan(alloc, &codes, plan, log)
}

/// The reply to the texts: the first refusal of the yard's, the plan's and the log's, or else the verdict.
fn judge_texts<'a>(alloc: Global, texts: &Texts) -> Result<Reply<'a>, NoMemory>
    ensures answer { IfOk result (λ reply.
        ChecksYard (yard_in texts.now.yard) texts.now.plan.items texts.now.log.items (outcome_of reply)) }
    ensures best { IfOk result (λ reply.
        reply.status ≡ 0 → IsBestText (yard_in texts.now.yard) texts.now.plan.items) }
{
    match yard_of_text(alloc, &texts.yard) {
        Ok(yard) => judge_yard(alloc, &yard, texts.plan.as_slice(), texts.log.as_slice()),
        Err(YardFault::Memory) => Err(NoMemory),
        Err(fault) => Ok(refusal(fault.line(alloc)?)),
    }
}

/// The texts of the files of these names, which are read in this order.
fn read_texts<D: Desk>(
    alloc: Global,
    desk: &mut D,
    yard: &str,
    plan: &str,
    log: &str,
) -> Result<Texts, Trouble>
    ensures yard { IfOk result (λ texts. IsTextOf (D.file desk.old yard.now) texts.yard) }
    ensures plan { IfOk result (λ texts. IfSome (D.file desk.old plan.now) (λ its. texts.plan.items ≡ its)) }
    ensures log { IfOk result (λ texts. IfSome (D.file desk.old log.now) (λ its. texts.log.items ≡ its)) }
    ensures same { Same (D.file desk.old) (D.said desk.old) (D.file desk.new) (D.said desk.new) }
    ensures tells { D.tells desk.new ≡ D.tells desk.old }
    ensures cause { HasCause (D.read_faults desk.old) (D.read_faults desk.new) result }
    ensures writes { D.write_faults desk.old ≤ D.write_faults desk.new }
{
    let yard = read_yard_text(alloc, desk, yard)?;
    let plan = read_file(alloc, desk, plan)?;
    let log = read_file(alloc, desk, log)?;
    Ok(Texts { yard, plan, log })
}

/// The reply to the files of these names. All three are read before any of them is refused; a yard that is too long is
/// refused unread.
pub(crate) fn reply_to_check<'a, D: Desk>(
    alloc: Global,
    yard: &str,
    plan: &str,
    log: &str,
    desk: &mut D,
) -> Result<Reply<'a>, Trouble>
    ensures answer { IfOk result (λ reply.
        ChecksFiles (D.file desk.old yard.now) (D.file desk.old plan.now) (D.file desk.old log.now)
        (outcome_of reply)) }
    ensures best { IfOk result (λ reply.
        reply.status ≡ 0 → HaveBest (D.file desk.old yard.now) (D.file desk.old plan.now)) }
    ensures same { Same (D.file desk.old) (D.said desk.old) (D.file desk.new) (D.said desk.new) }
    ensures tells { D.tells desk.new ≡ D.tells desk.old }
    ensures cause { HasCause (D.read_faults desk.old) (D.read_faults desk.new) result }
    ensures writes { D.write_faults desk.old ≤ D.write_faults desk.new }
{
    let texts = read_texts(alloc, desk, yard, plan, log)?;
    Ok(judge_texts(alloc, &texts)?)
}

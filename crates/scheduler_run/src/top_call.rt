//! The top call.
ghost use Rattle.std.specs.Prelude.{◌≡◌, ◌≢◌, ◌≤◌, ◌⊎◌, ◌↔◌, ℕ, List, IfOk, IsErrOf, Some, None, true, map, option_map};
ghost use Rattle.yard_io.specs.Desk.{Same, SameFiles, HasCause, Rose};
ghost use Rattle.yard_io.specs.QuietDesk.{file_of, said_of};
ghost use Rattle.scheduler_run.specs.Words.{asked, asked_by};
ghost use Rattle.scheduler_run.specs.Outcomes.{outcome_of, Wrote, WroteFront, KeepsBut};
ghost use Rattle.scheduler_run.specs.Answers.{Answers, Shows, KeepsOthers, IsAnswered, IsCutShort, GivesAnswer, GivesFront};

use crate::Status;
use crate::check_command::reply_to_check;
use crate::command::{Command, command_of};
use crate::gen_command::reply_to_gen;
use crate::load_command::reply_to_load;
use crate::plan_command::reply_to_plan;
use crate::reply::{Reply, usage, write_reply};
use std::alloc::Global;
use std::thread::Threads;
use yard_io::{Desk, Gate, OpenGate, QuietDesk, Trouble};

/// The reply to the words.
fn reply_to<'a, R: Threads + Sync, D: Desk, G: Gate + Sync>(
    rt: &R,
    alloc: Global,
    words: &[&'a str],
    desk: &mut D,
    gate: &G,
) -> Result<Reply<'a>, Trouble>
    ensures answer { IfOk result (λ reply.
        Answers (map (λ w. w.now) words.now) (D.file desk.old) (outcome_of reply)) }
    ensures shows { IfOk result (λ reply.
        reply.status ≡ 0 → Shows (map (λ w. w.now) words.now) (D.file desk.old)) }
    ensures answered { IfOk result (λ reply. IsAnswered reply.status) }
    ensures same { Same (D.file desk.old) (D.said desk.old) (D.file desk.new) (D.said desk.new) }
    ensures tells { D.tells desk.new ≡ D.tells desk.old }
    ensures words { asked (map (λ w. w.now) words.now) ≡ None → IsErrOf result Trouble.Failed → ⊥ }
    ensures cause { HasCause (D.read_faults desk.old) (D.read_faults desk.new) result }
    ensures writes { D.write_faults desk.old ≤ D.write_faults desk.new }
{
    match command_of(words) {
        Some(
            Command::Plan {
                yard,
                log,
                workers,
                split,
            },
        ) => { reply_to_plan(rt, alloc, gate, yard, workers, split, log, desk) }
        Some(Command::Check { yard, plan, log }) => reply_to_check(alloc, yard, plan, log, desk),
        Some(Command::Gen { seed, blocks }) => Ok(reply_to_gen(alloc, seed, blocks)?),
        Some(
            Command::Load {
                seed,
                blocks,
                workers,
            },
        ) => Ok(reply_to_load(rt, alloc, gate, seed, blocks, workers)?),
        None => Ok(usage(alloc)?),
    }
}

/// Writes a reply, or a front of it, and answers how the run ended.
fn give<D: Desk>(reply: &Reply<'_>, desk: &mut D) -> Status
    requires { IsAnswered reply.now.status }
    ensures whole { IsAnswered result.0 → Wrote (D.tells desk.old) (outcome_of reply.now)
        (D.file desk.old) (D.file desk.new) (D.said desk.old) (D.said desk.new) }
    ensures status { IsAnswered result.0 → result.0 ≡ reply.now.status }
    ensures front { IsCutShort result.0 → WroteFront (D.tells desk.old) (outcome_of reply.now)
        (D.file desk.old) (D.file desk.new) (D.said desk.old) (D.said desk.new) }
    ensures others { KeepsBut (outcome_of reply.now).made (D.file desk.old) (D.file desk.new) }
    ensures read { result.0 ≢ 4 }
    ensures write { result.0 ≡ 5 → Rose (D.write_faults desk.old) (D.write_faults desk.new) }
    ensures reads { D.read_faults desk.old ≤ D.read_faults desk.new }
{
    match write_reply(reply, desk) {
        Ok(()) => Status(reply.status),
        Err(Trouble::Failed) => Status(5),
        Err(Trouble::Memory) => Status(6),
    }
}

/// Does what the words ask for. The words are those after the program's name.
///
/// All that is written stands in memory before the first byte of it is written. Status 4 is a fault of reading, 5 a fault
/// of writing, 6 want of memory, of the product's own or of the desk; no clause says when memory is wanting.
#[tactic(auto, using(crate::proofs::AnswerLaws::usage_status))]
pub fn run<R: Threads + Sync, D: Desk, G: Gate + Sync>(
    rt: &R,
    alloc: Global,
    words: &[&str],
    desk: &mut D,
    gate: &G,
) -> Status
    // What is made and said, with which status, where the run was not cut short.
    ensures answer { IsAnswered result.0 → GivesAnswer (map (λ w. w.now) words.now) (D.tells desk.old) result.0
        (D.file desk.old) (D.file desk.new) (D.said desk.old) (D.said desk.new) }
    // What status 0 alone shows.
    ensures shows { result.0 ≡ 0 → Shows (map (λ w. w.now) words.now) (D.file desk.old) }
    // Status 2 goes with other words than a command's, and with them alone.
    ensures usage { IsAnswered result.0 → (result.0 ≡ 2) ↔ (asked (map (λ w. w.now) words.now) ≡ None) }
    ensures words { asked (map (λ w. w.now) words.now) ≡ None → result.0 ≢ 4 }
    // The causes of faults.
    ensures read_fault { result.0 ≡ 4 → Rose (D.read_faults desk.old) (D.read_faults desk.new) }
    ensures write_fault { result.0 ≡ 5 → Rose (D.write_faults desk.old) (D.write_faults desk.new) }
    // What was written where the run was cut short.
    ensures silent { result.0 ≡ 4 → Same (D.file desk.old) (D.said desk.old) (D.file desk.new) (D.said desk.new) }
    ensures front { IsCutShort result.0 → GivesFront (map (λ w. w.now) words.now) (D.tells desk.old)
        (D.file desk.old) (D.file desk.new) (D.said desk.old) (D.said desk.new) }
    // No file but the one that a command makes is ever changed.
    ensures files { KeepsOthers (map (λ w. w.now) words.now) (D.file desk.old) (D.file desk.new) }
{
    match reply_to(rt, alloc, words, desk, gate) {
        Ok(reply) => give(&reply, desk),
        Err(Trouble::Failed) => Status(4),
        Err(Trouble::Memory) => Status(6),
    }
}

/// A run over a desk whose counts of faults stay 0: it ends with no fault of reading or writing, and unless memory is
/// wanting it makes and says its answer whole.
pub fn run_quietly<R: Threads + Sync>(
    rt: &R,
    alloc: Global,
    words: &[&str],
    desk: &mut QuietDesk,
) -> Status
    ensures answer { result.0 ≢ 6 → GivesAnswer (map (λ w. w.now) words.now) true result.0
        (file_of desk.old) (file_of desk.new) (Some (said_of desk.old)) (Some (said_of desk.new)) }
    ensures shows { result.0 ≡ 0 → Shows (map (λ w. w.now) words.now) (file_of desk.old) }
    ensures read_fault { result.0 ≢ 4 }
    ensures write_fault { result.0 ≢ 5 }
    ensures front { result.0 ≡ 6 → GivesFront (map (λ w. w.now) words.now) true
        (file_of desk.old) (file_of desk.new) (Some (said_of desk.old)) (Some (said_of desk.new)) }
    ensures files { KeepsOthers (map (λ w. w.now) words.now) (file_of desk.old) (file_of desk.new) }
{
    run(rt, alloc, words, desk, &OpenGate)
}

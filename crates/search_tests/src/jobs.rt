//! Searches of jobs on made yards and on small ones, worked by hand.
ghost use Rattle.std.specs.Prelude.{◌≡◌, true, IfOk, IfSome};
ghost use Rattle.plan_rule.specs.Jobs.{IsJob};
ghost use Rattle.plan_rule.specs.Plans.{IsPlan};
ghost use Rattle.plan_rule.specs.Yards.{choices};
ghost use Rattle.branch_core.specs.Solved.{IsSolvable};

use branch_core::{plan_with_log, solve};
use branch_kernel::OneBar;
use code_table::Codes;
use log_checker::{Verdict, check};
use nogood_store::Nogoods;
use plain_search::best_plan;
use plan_rule::{Job, Plan, Region, before, region_of, total};
use refutation_log::{Log, write_log};
use sample_yards::{TWO_SQUARES, codes_of};
use shape_exact::NoMemory;
use std::alloc::Global;
use std::test::Fail;

/// A rectangle of which a number makes the sides, the duration, the due day and the weight.
fn made_block(alloc: Global, name: &str, number: u32) -> Result<String, Fail> {
    let x = 1 + number % 3;
    let y = 1 + number / 3 % 2;
    let days = 1 + number / 6 % 2;
    let due = number / 12 % 3;
    let weight = 1 + number / 36 % 4;
    let text = format!(in alloc;
        "[[block]]\nname='{name}'\nweight={weight}\nshape=[[0,0],[{x},0],[{x},{y}],[0,{y}]]\nduration={days}\ndue={due}\n"
    )?;
    Ok(text)
}

/// The codes of three made blocks on a plate of 3 by 2 and four days.
fn made_yard(alloc: Global, seed: u32) -> Result<Codes, Fail> {
    let one = made_block(alloc, "A", seed % 1000 * 37 % 144)?;
    let two = made_block(alloc, "B", seed % 1000 * 53 % 144)?;
    let three = made_block(alloc, "C", seed % 1000 * 71 % 144)?;
    let text = format!(in alloc;
        "version=1\ndays=4\n[[plate]]\nname='P'\nwidth=3\nheight=2\n{one}{two}{three}"
    )?;
    let codes = codes_of(alloc, text.as_bytes())?;
    Ok(codes)
}

/// Whether the region of the job is a part, which has a plan, feasible or not.
fn is_part(codes: &Codes, job: Job) -> bool
    requires { IsJob job }
    ensures { result ≡ true → IsSolvable (choices codes.now) job }
{
    match region_of(codes, job) {
        Region::Empty => false,
        Region::Part { .. } => true,
    }
}

/// The first of two plans, as far as there are two.
fn first_of(codes: &Codes, one: Option<Plan>, two: Option<Plan>) -> Option<Plan>
    requires one { IfSome one (IsPlan (choices codes.now)) }
    requires two { IfSome two (IsPlan (choices codes.now)) }
    ensures { IfSome result (IsPlan (choices codes.now)) }
{
    let Some(plan) = one else {
        return two;
    };
    let Some(rival) = two else {
        return Some(plan);
    };
    if before(codes, &rival, &plan) {
        Some(rival)
    } else {
        Some(plan)
    }
}

/// The first of the plans that the sixty-four jobs of length 6 report, searched one after another over one bar, one store and
/// one log. A job whose region has no plan is passed over.
fn plan_of_jobs(alloc: Global, codes: &Codes) -> Result<Option<Plan>, NoMemory>
    ensures { IfOk result (λ best. IfSome best (IsPlan (choices codes.now))) }
{
    let mut bars = OneBar::new(codes);
    let mut store = Nogoods::new(alloc)?;
    let mut log = Log::new(alloc);
    let mut best = None;
    for number in 0..64u64 {
        let Some(job) = Job::of_word(number * 0x1_0000_0000 + 6) else {
            continue;
        };
        if is_part(codes, job) {
            let report = solve(alloc, codes, job, &mut bars, &mut store, &mut log)?;
            best = first_of(codes, best, report.best);
        }
    }
    Ok(best)
}

/// Whether two answers are the same plan, of the same total, or both none.
fn agree(codes: &Codes, one: &Option<Plan>, two: &Option<Plan>) -> bool
    requires one { IfSome one.now (IsPlan (choices codes.now)) }
    requires two { IfSome two.now (IsPlan (choices codes.now)) }
{
    match one {
        None => two.is_none(),
        Some(plan) => match two {
            None => false,
            Some(other) => {
                plan.codes() == other.codes() && total(codes, plan) == total(codes, other)
            }
        },
    }
}

/// On a hundred made yards the plain search, the search of the job of all path numbers and the sixty-four jobs answer the same
/// plan, and the log of the one job is accepted for it.
#[test]
fn many_jobs_find_the_plan_of_one(rt: HostRuntime) -> Result<(), Fail> {
    for seed in 0..100u32 {
        let codes = made_yard(rt.alloc(), seed)?;
        let plain = best_plan(rt.alloc(), &codes)?;
        let planned = plan_with_log(rt.alloc(), &codes)?;
        let of_jobs = plan_of_jobs(rt.alloc(), &codes)?;
        assert!(rt; agree(&codes, &plain, &planned.best), "one job, {seed}");
        assert!(rt; agree(&codes, &plain, &of_jobs), "many jobs, {seed}");
        let verdict = check(rt.alloc(), &codes, planned.best.as_ref(), &planned.log)?;
        assert!(rt; verdict == Verdict::Accepted, "log, {seed}");
    }
    Ok(())
}

/// The text of the log of one job.
fn log_text(alloc: Global, codes: &Codes, job: Job) -> Result<Vec<u8>, NoMemory>
    requires job { IsJob job }
    requires region { IsSolvable (choices codes.now) job }
{
    let mut bars = OneBar::new(codes);
    let mut store = Nogoods::new(alloc)?;
    let mut log = Log::new(alloc);
    solve(alloc, codes, job, &mut bars, &mut store, &mut log)?;
    write_log(alloc, &log)
}

/// The text of the log of the job of this word; of none where the word is no job or its region has no plan.
fn log_of_word(alloc: Global, codes: &Codes, word: u64) -> Result<Vec<u8>, NoMemory> {
    let Some(job) = Job::of_word(word) else {
        return Ok(Vec::new(alloc));
    };
    if !is_part(codes, job) {
        return Ok(Vec::new(alloc));
    }
    log_text(alloc, codes, job)
}

/// A piece stands on the left half of a plate of 4 by 2, whose one day has three positions for each of two squares of side 2.
const BESIDE_A_PIECE: &[u8] = b"version=2
days=1
plate=[{name='P',width=4,height=2}]
block=[{name='A',shape=[[0,0],[2,0],[2,2],[0,2]],duration=1,due=0},{name='B',shape=[[0,0],[2,0],[2,2],[0,2]],duration=1,due=0}]
fixed=[{plate='P',shape=[[0,0],[2,0],[2,2],[0,2]],x=0,y=0,from=0,to=0}]
";

/// The first bit of a path number halves the three codes of block 0 to 0 and 1..3: the job of length 1 and front 0 fixes it to
/// code 0, on top of the piece. Of the two squares that share a plate in turn, four bits halve the 18 codes of a block down to
/// its code 0: the job of length 8 and front 0 sets both to code 0, on top of each other. One record covers the one code.
#[test]
fn a_prefix_that_no_plan_has_takes_one_record(rt: HostRuntime) -> Result<(), Fail> {
    for (yard, word, log) in [
        (BESIDE_A_PIECE, 1, "log 1\nbranch 0 0 1 - -\nend\n"),
        (TWO_SQUARES, 8, "log 1\nbranch 1 0 1 0:0 -\nend\n"),
    ] {
        let codes = codes_of(rt.alloc(), yard)?;
        let text = log_of_word(rt.alloc(), &codes, word)?;
        assert!(rt; text.as_slice() == log.as_bytes(), "{log}");
    }
    Ok(())
}

//! Crews and workers on yards of two blocks, worked by hand.
ghost use Rattle.std.specs.Prelude.{◌≡◌, ◌<◌};
ghost use Rattle.branch_workers.specs.Work.{IsStart};

mod meeting;
mod yards;

use branch_workers::{Capsules, Crewed, Reports, Worker, crew, work};
use incumbent_word::{Board, Fetched, Seat};
use meeting::Meeting;
use nogood_store::Nogoods;
use plan_rule::{Job, Plan, halves};
use refutation_log::{Log, Record};
use sample_yards::{ONE_CODE, TWO_SQUARES, TWO_TRIANGLES};
use std::alloc::Global;
use std::process::Abort;
use steal_rule::deque;
use yard_io::OpenGate;
use yards::codes_of;

/// The key of the best plan of the two squares, with the codes 0 and 4.
const BEST: u64 = 43_016_781_824;

/// Whether the plan has these codes.
fn has_codes(plan: &Option<Plan>, first: u32, second: u32) -> bool {
    let Some(plan) = plan else {
        return false;
    };
    let codes = plan.codes();
    codes.len() == 2 && codes[0] == first && codes[1] == second
}

#[test]
fn two_workers_find_the_best_plan(rt: HostRuntime) {
    let alloc = rt.alloc();
    let codes = codes_of(&rt, alloc, TWO_SQUARES);
    let Crewed { best, last, .. } = crew(&rt, alloc, &codes, 2, 3, &OpenGate).expect(
        &rt,
        "memory for a crew",
    );
    assert!(rt; has_codes(&best, 0, 4));
    assert_eq!(rt; last, BEST);
}

/// The rectangle can only begin on day 8. It ends on day 9, eight days late, which costs 40 and has the key 40 * 2^32.
#[test]
fn two_workers_plan_a_block_of_one_code(rt: HostRuntime) {
    let alloc = rt.alloc();
    let codes = codes_of(&rt, alloc, ONE_CODE);
    let Crewed { best, last, .. } = crew(&rt, alloc, &codes, 2, 3, &OpenGate).expect(
        &rt,
        "memory for a crew",
    );
    assert!(rt; has_codes(&best, 0, 0));
    assert_eq!(rt; last, 171_798_691_840);
}

/// A crew that ran its workers one after another would not let the first caller see another's number.
#[test]
fn two_workers_work(rt: HostRuntime) {
    let alloc = rt.alloc();
    let codes = codes_of(&rt, alloc, TWO_SQUARES);
    let gate = Meeting::new();
    let Crewed { last, .. } = crew(&rt, alloc, &codes, 2, 3, &gate).expect(
        &rt,
        "memory for a crew",
    );
    assert!(rt; gate.took_place(), "one worker after another");
    assert_eq!(rt; last, BEST);
}

#[test]
fn sixteen_workers_without_a_halving_report_once(rt: HostRuntime) {
    let alloc = rt.alloc();
    let codes = codes_of(&rt, alloc, TWO_SQUARES);
    let crewed = crew(&rt, alloc, &codes, 16, 0, &OpenGate).expect(&rt, "memory for a crew");
    assert_eq!(rt; crewed.reports.list().len(), 1);
    assert_eq!(rt; crewed.last, BEST);
}

#[test]
fn idle_worker_steals(rt: HostRuntime) {
    let alloc = rt.alloc();
    let codes = codes_of(&rt, alloc, TWO_SQUARES);
    let (board, seat) = Board::new(alloc, &codes).expect(&rt, "memory for a board");
    let (mut full, reach) = deque(alloc, 0).expect(&rt, "memory for a deque");
    let (owner, _) = deque(alloc, 1).expect(&rt, "memory for a deque");
    let Some((low, high)) = halves(Job::root()) else {
        panic!(rt; "no halves")
    };
    full.push(low);
    full.push(high);
    let mut reaches = Vec::new(alloc);
    reaches.push(reach).expect(&rt, "memory for a reach");
    let mut worker = Worker {
        number: 1,
        seat,
        owner,
        reaches,
        store: Nogoods::new(alloc).expect(&rt, "memory for a store"),
        reports: Reports::new(alloc).expect(&rt, "memory for reports"),
        log: Log::new(alloc),
        capsules: Capsules::none(),
    };
    work(alloc, &codes, &board, 1, &mut worker, &OpenGate).expect(&rt, "memory for work");
    let reports = worker.reports.list();
    assert_eq!(rt; reports.len(), 2);
    assert_eq!(rt; reports[0].job.word(), 1);
    assert_eq!(rt; reports[1].job.word(), 137_438_953_473);
}

/// A worker that is alone and has not begun, with the root in its deque.
fn alone(rt: &impl Abort, alloc: Global, board: &Board, seat: &mut Seat, number: u32) -> Worker
    requires number { number < 16 }
    requires seat { seat.old.place ≡ board.now }
    ensures seat { seat.new ≡ seat.old }
    ensures start { IsStart result × (result.seat.place ≡ board.now) }
{
    let (mut owner, _) = deque(alloc, number).expect(rt, "memory for a deque");
    owner.push(Job::root());
    Worker {
        number,
        seat: board.split(seat),
        owner,
        reaches: Vec::new(alloc),
        store: Nogoods::new(alloc).expect(rt, "memory for a store"),
        reports: Reports::new(alloc).expect(rt, "memory for reports"),
        log: Log::new(alloc),
        capsules: Capsules::none(),
    }
}

/// Whether the record is the branch over the one code of the second triangle beside the first one's, which it clashes with.
fn is_clash(record: &Record) -> bool {
    let Record::Branch {
        block: 1,
        lo: 0,
        hi: 1,
        side,
        cites,
    } = record
    else {
        return false;
    };
    let side = side.literals();
    side.len() == 1
        && side[0].block == 0
        && side[0].lo == 0
        && side[0].hi == 1
        && cites.list().is_empty()
}

/// Two workers, one after the other, solve the root each. The first one posts its record into the slot of its number, 1; the
/// second one posts its own into slot 0, and takes in what it finds in slot 1.
#[test]
fn work_shares(rt: HostRuntime) {
    let alloc = rt.alloc();
    let codes = codes_of(&rt, alloc, TWO_TRIANGLES);
    let (board, mut seat) = Board::new(alloc, &codes).expect(&rt, "memory for a board");
    let mut first = alone(&rt, alloc, &board, &mut seat, 1);
    let mut second = alone(&rt, alloc, &board, &mut seat, 0);
    work(alloc, &codes, &board, 0, &mut first, &OpenGate).expect(&rt, "memory for work");
    work(alloc, &codes, &board, 0, &mut second, &OpenGate).expect(&rt, "memory for work");
    let records = second.log.records();
    assert_eq!(rt; records.len(), 2);
    assert!(rt; is_clash(&records[0]) && is_clash(&records[1]));
    assert_eq!(rt; (first.capsules.posted, first.capsules.taken), (1, 0));
    assert_eq!(rt; (second.capsules.posted, second.capsules.taken), (1, 1));
    let Fetched::Nothing = board.fetch(&mut seat, 1) else {
        panic!(rt; "slot 1 is not empty")
    };
    let Fetched::Got(_) = board.fetch(&mut seat, 0) else {
        panic!(rt; "slot 0 is empty")
    };
}

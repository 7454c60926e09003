//! Four threads at one board.
ghost use Rattle.std.specs.Prelude.{◌≡◌, ◌<◌, ◌≤◌, All, IfSome, length};
ghost use Rattle.plan_rule.specs.Plans.{IsFeasible};
ghost use Rattle.plan_rule.specs.Yards.{choices};
ghost use Rattle.incumbent_word.specs.Sharing.{IsShareable};

use super::capsules::capsule_of;
use super::squares::{codes_of, plan_of};
use super::{BEST, board_of};
use crate::{Board, Fetched, Posted, Seat};
use code_table::Codes;
use plan_rule::Plan;
use refutation_log::Capsule;
use std::alloc::Global;
use std::process::Abort;
use std::thread::{Threads, join};

/// How often each thread offers and sees, and fetches or posts.
const TURNS: usize = 4000;

/// A seat, and the capsule that its thread has in hand.
type Part = (Seat, Option<Capsule>);

/// Fetches where nothing is in hand, and else posts what is, where its bar is the greatest u64. Answers what is then in
/// hand: no capsule is lost.
fn pass_on(board: &Board, seat: &mut Seat, slot: u8, hand: Option<Capsule>) -> Option<Capsule>
    requires slot { slot < 16 }
    requires board { seat.old.place ≡ board.now }
    requires hand { IfSome hand (IsShareable board.now.yard) }
    ensures board { seat.new.place ≡ board.now }
    ensures hand { IfSome result (IsShareable board.now.yard) }
{
    let Some(capsule) = hand else {
        return match board.fetch(seat, slot) {
            Fetched::Got(capsule) => Some(capsule),
            Fetched::Busy => None,
            Fetched::Nothing => None,
        };
    };
    if capsule.bar() != u64::MAX {
        return Some(capsule);
    }
    match board.post(seat, slot, capsule) {
        Posted::Busy(capsule) => Some(capsule),
        Posted::Replaced(capsule) => Some(capsule),
        Posted::Done => None,
    }
}

/// What each thread does.
fn take_part(board: &Board, codes: &Codes, plans: &[Plan], mut seat: Seat, number: usize) -> Part
    requires board { seat.place ≡ board.now }
    requires yard { codes.now ≡ board.now.yard }
    requires plans { All (IsFeasible (choices codes.now)) plans.now }
    requires number { number < 4 }
    ensures { result.0.place ≡ board.now }
{
    let mut hand = None;
    for turn in 0..TURNS {
        let at = turn + number;
        if at % 5 < plans.len() {
            board.offer(&mut seat, codes, &plans[at % 5]);
        }
        board.see(&mut seat);
        hand = pass_on(board, &mut seat, ((at * 7) % 16) as u8, hand);
    }
    (seat, hand)
}

/// Two threads, by the numbers `number` and `number + 1`.
fn pair<R: Threads + Sync>(
    rt: &R,
    board: &Board,
    codes: &Codes,
    plans: &[Plan],
    one: Seat,
    two: Seat,
    number: usize,
) -> (Part, Part)
    requires one { one.place ≡ board.now }
    requires two { two.place ≡ board.now }
    requires yard { codes.now ≡ board.now.yard }
    requires plans { All (IsFeasible (choices codes.now)) plans.now }
    requires number { number < 3 }
    ensures one { result.0.0.place ≡ board.now }
    ensures two { result.1.0.place ≡ board.now }
{
    join(
        rt,
        || take_part(board, codes, plans, one, number),
        || take_part(board, codes, plans, two, number + 1),
    )
}

/// Three more seats beside this one.
fn seats_of(board: &Board, seat: &mut Seat) -> (Seat, Seat, Seat)
    requires { seat.old.place ≡ board.now }
    ensures kept { seat.new.place ≡ board.now }
    ensures one { result.0.place ≡ board.now }
    ensures two { result.1.place ≡ board.now }
    ensures three { result.2.place ≡ board.now }
{
    (board.split(seat), board.split(seat), board.split(seat))
}

/// Four threads; answers the seat that all were joined to, and how many capsules they have in hand.
fn four<R: Threads + Sync>(
    rt: &R,
    board: &Board,
    codes: &Codes,
    plans: &[Plan],
    seat: Seat,
) -> (Seat, usize)
    requires board { seat.place ≡ board.now }
    requires yard { codes.now ≡ board.now.yard }
    requires plans { All (IsFeasible (choices codes.now)) plans.now }
    ensures board { result.0.place ≡ board.now }
    ensures few { result.1 ≤ 4 }
{
    let mut seat = seat;
    let (one, two, three) = seats_of(board, &mut seat);
    let (low, high) = join(
        rt,
        || -> (Part, Part)
            requires { (seat.place ≡ board.now) × (one.place ≡ board.now)
                × (codes.now ≡ board.now.yard) × All (IsFeasible (choices codes.now)) plans.now }
            ensures { (result.0.0.place ≡ board.entry.now)
                × (result.1.0.place ≡ board.entry.now) }
        { pair(rt, board, codes, plans, seat, one, 0) },
        || -> (Part, Part)
            requires { (two.place ≡ board.now) × (three.place ≡ board.now)
                × (codes.now ≡ board.now.yard) × All (IsFeasible (choices codes.now)) plans.now }
            ensures { (result.0.0.place ≡ board.entry.now)
                × (result.1.0.place ≡ board.entry.now) }
        { pair(rt, board, codes, plans, two, three, 2) },
    );
    let ((mut seat, a), (one, b)) = low;
    let ((two, c), (three, d)) = high;
    board.join(&mut seat, one);
    board.join(&mut seat, two);
    board.join(&mut seat, three);
    let held = usize::from(a.is_some())
        + usize::from(b.is_some())
        + usize::from(c.is_some())
        + usize::from(d.is_some());
    (seat, held)
}

/// How many slots hold a capsule; all are empty after it.
fn drained(board: &Board, seat: &mut Seat) -> usize
    requires { seat.old.place ≡ board.now }
    ensures board { seat.new.place ≡ board.now }
    ensures few { result ≤ 16 }
{
    let mut count = 0;
    for slot in 0..16 {
        if let Fetched::Got(_) = board.fetch(seat, slot) {
            count += 1;
        }
    }
    count
}

/// Five plans, of which 0, 4 has the least key.
fn plans_of(rt: &impl Abort, alloc: Global, codes: &Codes) -> Vec<Plan>
    requires { length codes.now.blocks ≡ 2 }
    ensures { All (IsFeasible (choices codes.now)) result.items }
{
    let mut plans = Vec::new(alloc);
    for (first, second) in [(4, 0), (1, 5), (6, 0), (0, 4), (8, 2)] {
        let plan = plan_of(rt, alloc, codes, first, second);
        plans.push(plan).expect(rt, "memory for plans");
    }
    plans
}

/// Puts a capsule with the greatest bar into each of the first eight slots.
fn stocked(rt: &impl Abort, alloc: Global, codes: &Codes, board: &Board, seat: &mut Seat)
    requires two { length codes.now.blocks ≡ 2 }
    requires yard { codes.now ≡ board.now.yard }
    requires board { seat.old.place ≡ board.now }
    ensures { seat.new.place ≡ board.now }
{
    for slot in 0..8 {
        let capsule = capsule_of(rt, alloc, codes, 0, 0, 4, u64::MAX);
        assert!(rt; matches!(board.post(seat, slot, capsule), Posted::Done));
    }
}

/// Four threads offer, see, fetch and post. The eight capsules are passed on, and none is lost.
#[test]
fn four_threads_share_a_board(rt: HostRuntime) {
    let alloc = rt.alloc();
    let codes = codes_of(&rt, alloc);
    let (board, mut seat) = board_of(&rt, alloc, &codes);
    let plans = plans_of(&rt, alloc, &codes);
    stocked(&rt, alloc, &codes, &board, &mut seat);
    let (mut seat, held) = four(&rt, &board, &codes, plans.as_slice(), seat);
    assert_eq!(rt; held + drained(&board, &mut seat), 8);
    assert_eq!(rt; board.close(seat).word, BEST);
}

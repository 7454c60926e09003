//! Boards of the yard of two squares that do not fit side by side, worked by hand, and one that four threads share.
ghost use Rattle.std.specs.Prelude.{◌≡◌, ◌<◌};
ghost use Rattle.incumbent_word.specs.Sharing.{IsPostable};

mod capsules;
mod crowd;
mod squares;

use crate::{Board, Fetched, Posted, Seat};
use capsules::capsule_of;
use code_table::Codes;
use refutation_log::Capsule;
use squares::{codes_of, plan_of};
use std::alloc::Global;
use std::process::Abort;

/// The plan 0, 4 costs 10 and has the path number 67,108,864; the plan 4, 0 costs as much, and its path number is
/// 1,073,741,824.
const BEST: u64 = 43_016_781_824;

const OTHER: u64 = 44_023_414_784;

/// A new board of the yard, and its seat.
fn board_of(rt: &impl Abort, alloc: Global, codes: &Codes) -> (Board, Seat)
    ensures yard { result.0.yard ≡ codes.now }
    ensures seat { result.1.place ≡ result.0 }
{
    Board::new(alloc, codes).expect(rt, "memory for a board")
}

/// The bar of the capsule that a fetch gives, or the word of its answer.
fn fetched(board: &Board, seat: &mut Seat, slot: u8) -> Result<u64, &'static str>
    requires slot { slot < 16 }
    requires board { seat.old.place ≡ board.now }
    ensures { seat.new.place ≡ board.now }
{
    match board.fetch(seat, slot) {
        Fetched::Busy => Err("busy"),
        Fetched::Nothing => Err("nothing"),
        Fetched::Got(capsule) => Ok(capsule.bar()),
    }
}

/// The bar of the capsule that a post finds, or the word of its answer.
fn posted(board: &Board, seat: &mut Seat, slot: u8, capsule: Capsule) -> Result<u64, &'static str>
    requires slot { slot < 16 }
    requires board { seat.old.place ≡ board.now }
    requires capsule { IsPostable board.now.yard seat.old.seen capsule }
    ensures { seat.new.place ≡ board.now }
{
    match board.post(seat, slot, capsule) {
        Posted::Busy(_) => Err("busy"),
        Posted::Done => Err("done"),
        Posted::Replaced(old) => Ok(old.bar()),
    }
}

#[test]
fn the_least_key_offered_is_the_best(rt: HostRuntime) {
    let alloc = rt.alloc();
    let codes = codes_of(&rt, alloc);
    let (board, mut seat) = board_of(&rt, alloc, &codes);
    let late = plan_of(&rt, alloc, &codes, 4, 0);
    let best = plan_of(&rt, alloc, &codes, 0, 4);
    assert_eq!(rt; board.see(&mut seat), 18_446_744_073_709_551_615);
    assert_eq!(rt; board.offer(&mut seat, &codes, &late), OTHER);
    assert_eq!(rt; board.offer(&mut seat, &codes, &best), BEST);
    assert_eq!(rt; board.offer(&mut seat, &codes, &late), BEST);
    let mut other = board.split(&mut seat);
    assert_eq!(rt; board.see(&mut other), BEST);
    board.join(&mut seat, other);
    assert_eq!(rt; board.close(seat).word, BEST);
}

/// A branch over block 1 beside block 0 at code 2, which costs 5: codes 0 to 5 clash, and the others cost 15 and more.
#[test]
fn a_posted_capsule_is_fetched_once(rt: HostRuntime) {
    let alloc = rt.alloc();
    let codes = codes_of(&rt, alloc);
    let (board, mut seat) = board_of(&rt, alloc, &codes);
    let best = plan_of(&rt, alloc, &codes, 0, 4);
    assert_eq!(rt; fetched(&board, &mut seat, 0), Err("nothing"));
    let bar = board.offer(&mut seat, &codes, &best);
    let capsule = capsule_of(&rt, alloc, &codes, 2, 0, 18, bar);
    assert_eq!(rt; posted(&board, &mut seat, 0, capsule), Err("done"));
    assert_eq!(rt; fetched(&board, &mut seat, 0), Ok(BEST));
    assert_eq!(rt; fetched(&board, &mut seat, 0), Err("nothing"));
}

#[test]
fn a_post_gives_what_stood_there(rt: HostRuntime) {
    let alloc = rt.alloc();
    let codes = codes_of(&rt, alloc);
    let (board, mut seat) = board_of(&rt, alloc, &codes);
    let best = plan_of(&rt, alloc, &codes, 0, 4);
    let old = capsule_of(&rt, alloc, &codes, 0, 0, 4, u64::MAX);
    assert_eq!(rt; posted(&board, &mut seat, 15, old), Err("done"));
    let bar = board.offer(&mut seat, &codes, &best);
    let new = capsule_of(&rt, alloc, &codes, 2, 0, 18, bar);
    assert_eq!(rt; posted(&board, &mut seat, 15, new), Ok(u64::MAX));
    assert_eq!(rt; fetched(&board, &mut seat, 15), Ok(BEST));
}

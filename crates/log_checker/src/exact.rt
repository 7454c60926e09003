//! The blocks that a side fixes to one code each.
ghost use Rattle.std.specs.Prelude.{◌≡◌, ◌<◌, ◌≤◌, ◌↔◌, All, Contains, IsTrue, length, true};
ghost use Rattle.plan_rule.specs.Boxes.{IsBox};
ghost use Rattle.plan_rule.specs.Yards.{choices};
ghost use Rattle.log_checker.specs.ExactBlocks.{AreExact, IsStanding};

use arrayvec::ArrayVec;
use code_table::{Codes, Placement};
use plan_rule::PlanBox;

/// A block that a side fixes to one code, and the placement of that code.
#[derive(Clone, Copy, PartialEq)]
pub(crate) struct Exact {
    pub block: u8,
    pub place: Placement,
}

impl Default for Exact {
    fn default() -> Exact {
        Exact {
            block: 0,
            place: Placement {
                start: 0,
                end: 0,
                plate: 0,
                turn: 0,
                y: 0,
                x: 0,
            },
        }
    }
}

/// The blocks that the side fixes to one code each, and where they stand.
pub(crate) fn exact_of(codes: &Codes, side: &PlanBox) -> ArrayVec<Exact, 32>
    requires { IsBox (choices codes.now) side.now }
    ensures exacts { AreExact codes.now side.now result.items }
    ensures standing { All (IsStanding codes.now) result.items }
{
    codes.limits();
    let mut list = ArrayVec::new();
    for l in side.literals() {
        if l.is_exact(l.block, l.lo) {
            list.push(Exact {
                block: l.block,
                place: codes.place(l.block, l.lo),
            });
        }
    }
    list
}

/// Whether the list has the exact block.
pub(crate) fn has(list: &[Exact], one: Exact) -> bool
    ensures { result ≡ true → Contains list.now one }
{
    for f in list {
        if *f == one {
            return true;
        }
    }
    false
}

/// Whether others has each exact block of the list.
pub(crate) fn are_in(list: &[Exact], others: &[Exact]) -> bool
    ensures { result ≡ true → All (Contains others.now) list.now }
{
    for f in list {
        if !has(others, *f) {
            return false;
        }
    }
    true
}

//! Path numbers and keys.
ghost use Rattle.std.specs.Prelude.{◌≡◌, ◌<◌, ◌^◌, ◌++◌, List, Bool};
ghost use Rattle.plan_rule.specs.Bits.{IsOpen, filled, code_bits};
ghost use Rattle.plan_rule.specs.Paths.{key, path};
ghost use Rattle.plan_rule.specs.Plans.{IsPlan};
ghost use Rattle.plan_rule.specs.Yards.{choices};

use crate::counts::count_of;
use crate::{Plan, keys_are_small, total};
use code_table::Codes;

/// A number of 32 bits that is filled from the highest bit down: what it is so far, and how many bits are left.
#[derive(Clone, Copy)]
pub(crate) struct Bits {
    number: u32,
    left: u8,
}

/// The bits with those that halve the block's codes down to the code.
fn with_halvings(bits: Bits, count: u32, code: u32) -> Bits
    requires open { IsOpen bits }
    requires code { code < count }
    ensures open { IsOpen result }
    ensures value { (rest : List Bool) → filled result rest ≡ filled bits (code_bits count code ++ rest) }
{
    let mut made = bits;
    let mut lo = 0;
    let mut hi = count;
    while made.left > 0 && hi - lo > 1 {
        let middle = lo + (hi - lo) / 2;
        let left = made.left - 1;
        let mut number = made.number;
        if code >= middle {
            number += 2u32.pow(u32::from(left));
            lo = middle;
        } else {
            hi = middle;
        }
        made = Bits { number, left };
    }
    made
}

/// The path number of a plan: the bits that halve each block's codes down to the plan's code, block by block, the
/// first the highest, cut or filled with 0 to 32 bits.
pub fn path(codes: &Codes, plan: &Plan) -> u32
    requires { IsPlan (choices codes.now) plan.now }
    ensures { result ≡ path (choices codes.now) plan.now }
{
    let mut bits = Bits {
        number: 0,
        left: 32,
    };
    for (block, code) in plan.codes().iter().enumerate() {
        bits = with_halvings(bits, count_of(codes, block), *code);
    }
    bits.number
}

/// The key of a plan: its total times 2^32, plus its path number. It is below the greatest number of 64 bits.
pub fn key(codes: &Codes, plan: &Plan) -> u64
    requires { IsPlan (choices codes.now) plan.now }
    ensures value { result ≡ key (choices codes.now) plan.now }
    ensures below { result < 2 ^ 63 }
{
    keys_are_small(codes);
    u64::from(total(codes, plan)) * 0x1_0000_0000 + u64::from(path(codes, plan))
}

//! The order of plans.
ghost use Rattle.std.specs.Prelude.{◌≡◌, ◌↔◌, IsTrue, length};
ghost use Rattle.plan_rule.specs.Plans.{IsPlan, total, IsLexLess, IsBefore};
ghost use Rattle.plan_rule.specs.Yards.{choices};

use crate::{Plan, block_count};
use code_table::Codes;

/// The total of a plan: the own costs of its codes, added up. That it is below 2^31 is a law, `keys_are_small`.
pub fn total(codes: &Codes, plan: &Plan) -> u32
    requires { IsPlan (choices codes.now) plan.now }
    ensures { result ≡ total (choices codes.now) plan.now }
{
    let list = plan.codes();
    let mut sum = 0;
    for block in 0..block_count(codes) {
        sum += codes.own_cost(block, list[block as usize]);
    }
    sum
}

/// Whether the first number at which the two lists differ is smaller in the first list.
fn is_lex_less(one: &[u32], two: &[u32]) -> bool
    requires { length one.now ≡ length two.now }
    ensures { IsTrue result ↔ IsLexLess one.now two.now }
{
    for i in 0..one.len() {
        if one[i] != two[i] {
            return one[i] < two[i];
        }
    }
    false
}

/// Whether plan `a` is before plan `b`: its total is smaller, or the totals are equal and its codes are
/// lexicographically smaller.
pub fn before(codes: &Codes, a: &Plan, b: &Plan) -> bool
    requires a { IsPlan (choices codes.now) a.now }
    requires b { IsPlan (choices codes.now) b.now }
    ensures { IsTrue result ↔ IsBefore (choices codes.now) a.now b.now }
{
    let one = total(codes, a);
    let two = total(codes, b);
    one < two || one == two && is_lex_less(a.codes(), b.codes())
}

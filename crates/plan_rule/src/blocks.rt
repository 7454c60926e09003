//! The blocks of a yard.
ghost use Rattle.std.specs.Prelude.{◌≡◌, ◌≤◌};
ghost use Rattle.shape_exact.specs.Yards.{IsYard};
ghost use Rattle.plan_rule.specs.Choices.{blocks};
ghost use Rattle.plan_rule.specs.Yards.{choices};

use code_table::Codes;

/// The number of blocks, at most 32.
#[tactic(auto, using(crate::proofs::CountLaws::counts))]
pub fn block_count(codes: &Codes) -> u8
    ensures value { result ≡ blocks (choices codes.now) }
    ensures few { result ≤ 32 }
    ensures limits { IsYard codes.now }
{
    codes.yard().blocks().len() as u8
}

//! The energy of a side in a window of days.
ghost use Rattle.std.specs.Prelude.{◌≡◌, ◌≤◌, ◌<◌, ◌^◌, IfSome};
ghost use Rattle.plan_rule.specs.Choices.{blocks};
ghost use Rattle.plan_rule.specs.Fronts.{HasCodes};
ghost use Rattle.plan_rule.specs.Boxes.{IsBox};
ghost use Rattle.plan_rule.specs.Bounds.{IsEnergy};
ghost use Rattle.plan_rule.specs.Yards.{choices};
ghost use Rattle.code_table.specs.Costs.{lesser};
ghost use Rattle.log_checker.specs.Claims.{plan_of};
ghost use Rattle.log_checker.specs.Verdicts.{TellsBound};
ghost use Rattle.log_checker.specs.Windows.{IsLeastRaiseOf, IsRaiseIn};

use crate::base::base;
use crate::block::block_at;
use crate::judge::Judge;
use crate::refute::fault;
use crate::window::{Window, has_room, presses};
use code_table::Codes;
use plan_rule::{PlanBox, block_count};

/// What the block costs at least, above its least own cost, where it ends after the window; None where it does not
/// press.
fn raise(codes: &Codes, side: &PlanBox, window: Window, block: u8) -> Option<u32>
    requires block { block < blocks (choices codes.now) }
    requires codes { HasCodes (choices codes.now) }
    ensures raise { IsRaiseIn (choices codes.now) side.now window.from window.to block result }
    ensures few { IfSome result (λ v. v < 2 ^ 31) }
{
    if !presses(codes, side, window, block) {
        return None;
    }
    let least = codes.least_cost(block)?;
    let data = block_at(codes, block);
    let late = (u32::from(window.to) + 1).saturating_sub(u32::from(data.due));
    Some((u32::from(data.weight) * late).saturating_sub(least))
}

/// The less of two numbers, where there are two.
fn lesser(a: Option<u32>, b: Option<u32>) -> Option<u32>
    ensures { result ≡ lesser a b }
{
    match (a, b) {
        (None, b) => b,
        (Some(a), None) => Some(a),
        (Some(a), Some(b)) => Some(a.min(b)),
    }
}

/// The least raise of the blocks that press; None where none presses.
fn least_raise(codes: &Codes, side: &PlanBox, window: Window) -> Option<u32>
    requires { HasCodes (choices codes.now) }
    ensures raise { IsLeastRaiseOf (choices codes.now) side.now window.from window.to result }
    ensures few { IfSome result (λ v. v < 2 ^ 31) }
{
    let mut least = None;
    for block in 0..block_count(codes) {
        least = lesser(least, raise(codes, side, window, block));
    }
    least
}

/// The energy of the side in the window; None for Never.
fn energy(codes: &Codes, side: &PlanBox, window: Window) -> Option<u32>
    requires side { IsBox (choices codes.now) side.now }
    requires days { window.to < (choices codes.now).days }
    ensures { IsEnergy (choices codes.now) window.from window.to side.now result }
{
    let base = base(codes, side)?;
    let Some(raise) = least_raise(codes, side, window) else {
        return Some(base);
    };
    if has_room(codes, side, window) {
        return Some(base);
    }
    let days = codes.yard().days();
    if window.to + 1 == days {
        return None;
    }
    Some(base + raise)
}

/// The energy of the side in the window of these days, where it does not refute the side; None where it does.
pub(crate) fn energy_fault(judge: &Judge<'_>, from: u16, to: u16, side: &PlanBox) -> Option<u32>
    requires side { IsBox (choices judge.now.codes.now) side.now }
    requires window { from ≤ to }
    requires days { to < (choices judge.now.codes.now).days }
    ensures { TellsBound (IsEnergy (choices judge.now.codes.now) from to side.now) (choices judge.now.codes.now) (plan_of judge.now.claim) side.now result }
{
    fault(judge, side, energy(judge.codes, side, Window { from, to }))
}

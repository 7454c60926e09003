//! What is kept of a side while the codes of a block are settled beside it.
ghost use Rattle.std.specs.Prelude.{◌≡◌, ◌<◌, ◌≤◌, ◌^◌, ℕ, Bool, Some, IfOk, IfSome};
ghost use Rattle.plan_rule.specs.Boxes.{IsBox};
ghost use Rattle.plan_rule.specs.Yards.{choices};
ghost use Rattle.tardiness_bounds.specs.Numbers.{number};
ghost use Rattle.branch_kernel.specs.Known.{AreKnown};
ghost use Rattle.branch_kernel.specs.States.{IsHeld, relied};
ghost use Rattle.branch_search.specs.declared.view.Dear.{Dear};
ghost use Rattle.branch_search.specs.Floors.{BeatsFrom};
ghost use Rattle.branch_search.specs.Views.{IsView};

use crate::floor::beats_from;
use code_table::Codes;
use plan_rule::{Plan, PlanBox};
use shape_exact::NoMemory;
use std::alloc::Global;
use tardiness_bounds::{Bound, Frontier, YardTables};

/// A cost, and the base of some of the side's literals with a code of the block that costs so much. Where that bound beats
/// those literals, the codes that cost as much or more are covered by the base of them.
#[derive(Drop)]
pub(crate) struct Dear {
    pub short: PlanBox,
    pub cost: u32,
    pub bound: Bound,
}

/// The exact literals of a side, and from which cost on the base covered the codes of a block.
#[derive(Drop)]
pub(crate) struct SideView<'a> {
    pub front: Frontier<'a>,
    pub dear: Option<Dear>,
}

/// The view of a side beside which no code was settled yet.
pub(crate) fn view_of<'a>(
    alloc: Global,
    tables: &'a YardTables<'a>,
    side: &PlanBox,
) -> Result<SideView<'a>, NoMemory>
    requires { IsBox (choices tables.now.yard) side.now }
    ensures { IfOk result (λ view. (needs : ℕ → Bool) (b : ℕ) → IsView tables.now.yard side.now needs b view) }
{
    let front = Frontier::of(alloc, tables, side)?;
    Ok(SideView { front, dear: None })
}

/// Whether a code of this cost is covered by what is kept of a dear one, and whether by a tie.
pub(crate) fn dear_covers(
    codes: &Codes,
    bar: u64,
    best: &Option<Plan>,
    dear: &Option<Dear>,
    cost: u32,
) -> Option<bool>
    requires known { AreKnown (choices codes.now) }
    requires fits { bar < 2 ^ 64 }
    requires held { IsHeld (choices codes.now) bar best.now }
    requires dear { IfSome dear.now (λ d. IsBox (choices codes.now) d.short) }
    ensures { IfSome result (λ tie. (d : Dear) × (dear.now ≡ Some d) × (d.cost ≤ cost)
        × BeatsFrom (choices codes.now) bar (relied tie best.now) d.short (number d.bound)) }
{
    let Some(dear) = dear else {
        return None;
    };
    if cost < dear.cost {
        return None;
    }
    beats_from(codes, bar, best, &dear.short, dear.bound)
}

//! The fit of a box.
ghost use Rattle.std.specs.Prelude.{IfOk};
ghost use Rattle.plan_rule.specs.Boxes.{IsBox};
ghost use Rattle.plan_rule.specs.Bounds.{IsFit};
ghost use Rattle.plan_rule.specs.Yards.{choices};
ghost use Rattle.tardiness_bounds.specs.Numbers.{number};

use crate::bound::Bound;
use crate::frontier::Frontier;
use crate::tables::YardTables;
use code_table::Codes;
use plan_rule::PlanBox;
use shape_exact::NoMemory;
use std::alloc::Global;

/// The fit of the box, by slots and obstacles that were made before.
pub fn fit_among(alloc: Global, tables: &YardTables<'_>, part: &PlanBox) -> Result<Bound, NoMemory>
    requires { IsBox (choices tables.now.yard) part.now }
    ensures { IfOk result (λ bound. IsFit (choices tables.now.yard) part.now (number bound)) }
{
    let frontier = Frontier::of(alloc, tables, part)?;
    Ok(frontier.bound())
}

/// The fit of the box: the own costs of its exact literals, and of each other block the least own cost of its codes that
/// clash with none of them and meet no piece. Never where a block has no such code. Codes are not listed: a block's starts are walked in the
/// order of their costs, and on each the first free position is sought by rows of obstacles.
pub fn fit(alloc: Global, codes: &Codes, part: &PlanBox) -> Result<Bound, NoMemory>
    requires { IsBox (choices codes.now) part.now }
    ensures { IfOk result (λ bound. IsFit (choices codes.now) part.now (number bound)) }
{
    let tables = YardTables::new(alloc, codes)?;
    fit_among(alloc, &tables, part)
}

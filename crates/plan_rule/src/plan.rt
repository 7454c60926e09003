//! Plans.
ghost use Rattle.std.specs.Prelude.{◌≡◌, ℕ, List, IfOk, Some};
ghost use Rattle.plan_rule.specs.Plans.{IsPlan, IsFeasible, IsBest};
ghost use Rattle.plan_rule.specs.Yards.{choices};

use code_table::Codes;
use shape_exact::NoMemory;
use std::alloc::Global;
use std::marker::Model;

/// A plan: one code for each block, in file order. Contracts see it as the list of its codes.
#[derive(Drop)]
pub struct Plan {
    list: Vec<u32>,
}

impl Model for Plan {
    ghost use Rattle.std.specs.Prelude.{List, ℕ};

    ghost Value = { List ℕ };

    ghost view = { λ s. s.list.items };
}

impl Plan {
    /// The plan of these codes, `list[i]` of block `i`.
    pub fn new(alloc: Global, codes: &Codes, list: &[u32]) -> Result<Plan, NoMemory>
        requires plan { IsPlan (choices codes.now) list.now }
        ensures { IfOk result (λ plan. plan ≡ list.now) }
    {
        let list = list.to_vec(alloc)?;
        Ok(Plan { list })
    }

    /// A second plan of the same codes.
    pub fn copy(&self, alloc: Global) -> Result<Plan, NoMemory>
        ensures { IfOk result (λ plan. plan ≡ self.now) }
    {
        let list = self.list.as_slice().to_vec(alloc)?;
        Ok(Plan { list })
    }

    /// The codes, `codes()[i]` of block `i`.
    pub fn codes(&self) -> &[u32]
        ensures { result.now ≡ self.now }
    {
        self.list.as_slice()
    }
}

/// There is at most one best plan.
pub fn best_is_one(codes: &Codes, one: &Plan, two: &Plan)
    requires one { IsBest (choices codes.now) (Some one.now) }
    requires two { IsBest (choices codes.now) (Some two.now) }
    ensures { one.now ≡ two.now }
{}

/// Where a plan is feasible, there is a best one.
pub fn best_exists(codes: &Codes, plan: &Plan)
    requires { IsFeasible (choices codes.now) plan.now }
    ensures { (best : List ℕ) × IsBest (choices codes.now) (Some best) }
{
    codes.limits();
}

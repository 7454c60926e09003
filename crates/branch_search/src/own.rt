//! Small steps of a walk: how a code was settled, the best plan's own code, and what is cited.
ghost use Rattle.std.specs.Prelude.{◌≡◌, ◌<◌, ◌≤◌, ◌++◌, IfOk, IfSome, option_to_list};

use branch_kernel::Covered;
use plan_rule::{Literal, Plan};
use shape_exact::NoMemory;
use std::alloc::Global;

/// How a code was settled. Where it `jumps`, its record was made last, and it shows the side without the code.
#[derive(Clone, Copy, Drop)]
pub(crate) struct Settled {
    pub covered: Covered,
    pub jumps: bool,
}

/// Adds the number, if there is one.
pub(crate) fn note(cites: &mut Vec<u64>, number: Option<u64>) -> Result<(), NoMemory>
    ensures { IfOk result (λ _. cites.new.items ≡ cites.old.items ++ option_to_list number) }
{
    if let Some(number) = number {
        cites.push(number)?;
    }
    Ok(())
}

/// The numbers, as far as there are some.
pub(crate) fn cites_of(
    alloc: Global,
    one: Option<u64>,
    two: Option<u64>,
    three: Option<u64>,
) -> Result<Vec<u64>, NoMemory>
    ensures { IfOk result (λ v. v.items ≡ (option_to_list one ++ option_to_list two) ++ option_to_list three) }
{
    let mut cites = Vec::new(alloc);
    note(&mut cites, one)?;
    note(&mut cites, two)?;
    note(&mut cites, three)?;
    Ok(cites)
}

/// The best plan's code of the range's block, where it is in the range.
pub(crate) fn own_code(best: &Option<Plan>, range: Literal) -> Option<u32>
    ensures { IfSome result (λ code. (range.lo ≤ code) × (code < range.hi)) }
{
    let Some(plan) = best else {
        return None;
    };
    let codes = plan.codes();
    let at = usize::from(range.block);
    if at < codes.len() && range.has(codes[at]) {
        return Some(codes[at]);
    }
    None
}

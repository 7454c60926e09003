//! Records of a log.
ghost use Rattle.std.specs.Prelude.{◌≡◌, ◌↔◌, [], IsTrue};
ghost use Rattle.plan_rule.specs.Choices.{count};
ghost use Rattle.plan_rule.specs.Yards.{choices};
ghost use Rattle.refutation_log.specs.Steps.{result_of};

use crate::Cites;
use code_table::Codes;
use plan_rule::{Literal, PlanBox};

/// Why no plan of a box is feasible and before the answer.
///
/// A `Branch` goes over the codes `lo` up to, and without, `hi` of a block, beside the literals of `side`; its box is
/// `side` with those codes. A `Fit` says that the fit of `side` refutes it, and an `Energy` that the energy of `side` in
/// the window from day `from` to day `to`, both included, does.
#[derive(Drop)]
pub enum Record {
    Branch {
        block: u8,
        lo: u32,
        hi: u32,
        side: PlanBox,
        cites: Cites,
    },
    Fit {
        side: PlanBox,
    },
    Energy {
        from: u16,
        to: u16,
        side: PlanBox,
    },
}

/// Whether a range is all codes of its block, and the side beside it is empty.
fn is_over_all(codes: &Codes, range: Literal, side: &PlanBox) -> bool
    ensures { IsTrue result ↔ ((side.now ≡ []) × (range.lo ≡ 0) × (range.hi ≡ count (choices codes.now) range.block)) }
{
    side.literals().is_empty() && range.is_whole(codes)
}

impl Record {
    /// Whether the record refutes every plan: the box that it refutes is the empty one.
    pub fn refutes_all(&self, codes: &Codes) -> bool
        ensures { IsTrue result ↔ (result_of (choices codes.now) self.now ≡ []) }
    {
        match self {
            Record::Branch {
                block,
                lo,
                hi,
                side,
                ..
            } => {
                let range = Literal {
                    block: *block,
                    lo: *lo,
                    hi: *hi,
                };
                is_over_all(codes, range, side)
            }
            Record::Fit { side } => side.literals().is_empty(),
            Record::Energy { side, .. } => side.literals().is_empty(),
        }
    }
}

//! A stored box.
use plan_rule::PlanBox;

/// A box of plans and its tag, which says to the caller why the box was stored.
#[derive(Drop)]
pub struct Nogood {
    pub part: PlanBox,
    pub tag: u64,
}

//! What a seat knows, and the rule of the board. No value of these types is made: they stand in proofs alone.
use atomic_table::TableRule;
use code_table::Codes;
use plan_rule::Plan;
use refutation_log::Capsule;
use std::collections::LinkedList;

/// What a seat knows: its board's yard, the keys that it has seen, the plans that it has offered, the turn that it holds,
/// by the number of the turn's word, and for each slot how often it has found the turn taken and the slot empty. A view
/// that is not live is that of a seat which was joined to another.
pub struct View {
    pub live: bool,
    pub yard: Codes,
    pub seen: LinkedList<u64>,
    pub offered: LinkedList<Plan>,
    pub turn: Option<u64>,
    pub taken: LinkedList<u64>,
    pub empty: LinkedList<u64>,
}

/// The rule, and what the first seat knows.
pub struct Shared;

impl TableRule<Option<Capsule>, View, Codes> for Shared {
    ghost use Rattle.incumbent_word.specs.Rule.{IsKept};
    ghost use Rattle.incumbent_word.specs.Views.{fresh};

    ghost holds = { IsKept };

    ghost first = { fresh };
}

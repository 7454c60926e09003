//! What an owner or a reach knows, the rule of a deque, and what each step tells. No value of these types is made.
use atomic_table::{Join, Play, Split, Table, TableRule};
use plan_rule::Job;
use std::alloc::Global;
use std::collections::LinkedList;

/// What an owner or a reach knows.
pub struct View {
    /// False of a reach that was taken in at the end.
    pub live: bool,
    /// Whether this is the owner's.
    pub owns: bool,
    /// How many of the deque's 16 parts it holds.
    pub parts: u64,
    /// The jobs that the owner has pushed.
    pub pushed: LinkedList<Job>,
    /// The cells that the owner has found empty after it had pushed to them.
    pub gone: LinkedList<u64>,
    /// The cells that it has emptied, each with the job found there.
    pub emptied: LinkedList<(u64, Job)>,
    /// For each cell how often it has found it empty.
    pub finds: LinkedList<u64>,
    /// How often it has looked for a job.
    pub looks: u64,
    /// Whether its last look found none, and nothing was pushed since.
    pub idle: bool,
}

/// The rule of a deque's cells.
pub struct DequeRule;

impl TableRule<(), View, ()> for DequeRule {
    ghost use Rattle.steal_rule.specs.Rule.{Holds};
    ghost use Rattle.steal_rule.specs.Views.{opening};

    ghost holds = { λ _. Holds };

    ghost first = { λ _. opening };
}

/// A swap of a cell with 0.
pub struct Swaps;

impl Play<(), View> for Swaps {
    ghost use Rattle.steal_rule.specs.Plays.{Swapped};

    ghost then = { λ s m found n. Swapped s.word m found n };
}

/// A store of a job in the next cell.
pub struct Pushes;

impl Play<(), View> for Pushes {
    ghost use Rattle.steal_rule.specs.Plays.{Pushed};

    ghost then = { λ s m found n. Pushed s.first m n };
}

/// The last swap, by the owner with all parts.
pub struct Settles;

impl Play<(), View> for Settles {
    ghost use Rattle.steal_rule.specs.Plays.{Settled};

    ghost then = { λ s m found n. Settled m n };
}

/// The first reach takes all parts.
pub struct AllParts;

impl Split<View> for AllParts {
    ghost use Rattle.steal_rule.specs.Views.{without_parts, reach_of};

    ghost left = { λ v. without_parts v 16 };

    ghost right = { λ v. reach_of 16 };
}

/// A new reach takes one part.
pub struct OnePart;

impl Split<View> for OnePart {
    ghost use Rattle.steal_rule.specs.Views.{without_parts, reach_of};

    ghost left = { λ v. without_parts v 1 };

    ghost right = { λ v. reach_of 1 };
}

/// The owner takes in a reach.
pub struct Gathers;

impl Join<View> for Gathers {
    ghost use Rattle.steal_rule.specs.Views.{gathered, spent};

    ghost both = { gathered };

    ghost spent = { spent };
}

/// The cells of a deque.
pub type Cells = Table<(), View, (), DequeRule, Global>;

/// The place from which an owner or a reach takes its steps.
pub type Place = atomic_table::Seat<(), View>;

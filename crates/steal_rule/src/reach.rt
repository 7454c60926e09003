//! Reaches.
ghost use Rattle.std.specs.Prelude.{◌≡◌, ◌<◌, IfOk, OnOk, OnErr};
ghost use Rattle.plan_rule.specs.Jobs.{IsJob};
ghost use Rattle.steal_rule.specs.Deques.{IsStolen, IfGot, one_part_less, new_reach};

use crate::rule::{Cells, OnePart, Place};
use crate::sweep::sweep;
use plan_rule::Job;
use shape_exact::NoMemory;
use std::alloc::Global;
use std::marker::Model;
use std::sync::Arc;

/// Who steals. Contracts see its deque, its parts, the jobs that it has stolen, for each cell how often it has found
/// it empty, how many steals it has made, and whether the last answered Empty.
#[derive(Drop)]
pub struct Reach {
    pub(crate) cells: Arc<Cells, Global>,
    pub(crate) place: Place,
    pub(crate) number: u32,
    pub(crate) parts: u32,
}

impl Model for Reach {
    ghost use Rattle.std.specs.Prelude.{◌≡◌, [], true, false};
    ghost use Rattle.std.specs.Arc.{arc_value};
    ghost use Rattle.steal_rule.specs.Deques.{Reaching, reaching};
    ghost use Rattle.steal_rule.specs.Places.{IsPlaced, IsReach};

    ghost Value = { Reaching };

    ghost view = { λ r. reaching r.place.table_id r.number r.place.me.0 };

    ghost invariant = { λ r.
        IsPlaced (arc_value r.cells).shared.table_id r.place.table_id r.place.me.1
        × (r.place.me.0.parts ≡ r.parts)
        × IsReach r.place.me.0 };
}

/// What came of a steal.
#[derive(Clone, Copy, Debug, PartialEq, Eq)]
pub enum Stolen {
    /// A job, which nobody else gets.
    Got(Job),
    /// This steal found each of the 64 cells empty.
    Empty,
}

impl Reach {
    /// The number that the deque was made with.
    pub fn owner(&self) -> u32
        ensures { result ≡ self.now.number }
    {
        self.number
    }

    /// How many of the deque's 16 parts it holds, at least one.
    pub fn parts(&self) -> u32
        ensures value { result ≡ self.now.parts }
        ensures some { 0 < result }
    {
        self.parts
    }

    /// A new reach of the same deque, which takes one part of this one.
    pub fn split(&mut self, alloc: Global) -> Result<Reach, NoMemory>
        requires { 1 < self.old.parts }
        ensures left { OnOk result (self.new ≡ one_part_less self.old) }
        ensures new { IfOk result (λ reach. reach ≡ new_reach self.old) }
        ensures refused { OnErr result (self.new ≡ self.old) }
    {
        let cells = Arc::try_clone(&self.cells)?;
        let place = self.cells.shared.split_seat::<OnePart>(&mut self.place);
        self.parts -= 1;
        Ok(Reach {
            cells,
            place,
            number: self.number,
            parts: 1,
        })
    }

    /// Takes the job of the first cell that has one, looking from cell 0 up; Empty where this call found all 64
    /// empty.
    pub fn steal(&mut self) -> Stolen
        ensures stolen { IsStolen self.old result self.new }
        ensures job { IfGot result IsJob }
    {
        let Some(job) = sweep(&self.cells, &mut self.place) else {
            return Stolen::Empty;
        };
        Stolen::Got(job)
    }
}

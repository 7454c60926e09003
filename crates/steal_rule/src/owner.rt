//! Owners.
ghost use Rattle.std.specs.Prelude.{◌≡◌, ◌+◌, ◌<◌, ◌≤◌, length, IfSome};
ghost use Rattle.plan_rule.specs.Jobs.{IsJob};
ghost use Rattle.steal_rule.specs.Deques.{pushing, IsPopped};

use crate::rule::{Cells, Place, Pushes};
use crate::sweep::sweep;
use plan_rule::Job;
use std::alloc::Global;
use std::marker::Model;
use std::sync::Arc;

/// Who pushes and pops. Contracts see its deque, the jobs that it has pushed and popped, for each cell how often it
/// has found it empty, and whether it is idle: its last pop answered None, and nothing was pushed since.
#[derive(Drop)]
pub struct Owner {
    pub(crate) cells: Arc<Cells, Global>,
    pub(crate) place: Place,
    pub(crate) number: u32,
    pub(crate) room: u32,
    pub(crate) popped: u32,
}

impl Model for Owner {
    ghost use Rattle.std.specs.Prelude.{◌≡◌, ◌+◌, ◌≤◌, [], true, length};
    ghost use Rattle.std.specs.Arc.{arc_value};
    ghost use Rattle.steal_rule.specs.Deques.{Owned, owned};
    ghost use Rattle.steal_rule.specs.Places.{IsPlaced, HasCounts, IsOwner};

    ghost Value = { Owned };

    ghost view = { λ o. owned o.place.table_id o.number o.place.me.0 };

    ghost invariant = { λ o.
        IsPlaced (arc_value o.cells).shared.table_id o.place.table_id o.place.me.1
        × HasCounts o.room o.popped o.place.me.0
        × IsOwner o.place.me.0 };
}

impl Owner {
    /// The number that the deque was made with.
    pub fn owner(&self) -> u32
        ensures { result ≡ self.now.number }
    {
        self.number
    }

    /// How many jobs can still be pushed: 64 less those that were.
    pub fn room(&self) -> u32
        ensures { result + length self.now.pushed ≡ 64 }
    {
        self.room
    }

    /// Puts a job into the next cell. It takes no memory and has no refusal: ask `room` first.
    pub fn push(&mut self, job: Job)
        requires room { length self.old.pushed < 64 }
        requires job { IsJob job }
        ensures { self.new ≡ pushing self.old job }
    {
        let cell = 64 - self.room as usize;
        self.cells
            .shared
            .store::<Pushes>(&mut self.place, cell, job.word() + 1);
        self.room -= 1;
    }

    /// Takes the job of the first cell that has one, looking from cell 0 up; None where this call found all 64
    /// empty. After a None no job that was pushed is left in the deque, as `idle_owners_leave_none` says.
    pub fn pop(&mut self) -> Option<Job>
        ensures popped { IsPopped self.old result self.new }
        ensures job { IfSome result IsJob }
        ensures few { length self.new.popped ≤ 64 }
    {
        let Some(job) = sweep(&self.cells, &mut self.place) else {
            return None;
        };
        self.popped += 1;
        Some(job)
    }
}

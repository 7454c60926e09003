//! The store.
ghost use Rattle.std.specs.Prelude.{◌≡◌, ◌-◌, ◌<◌, ◌≤◌, [], ◌∷◌, ◌++◌, length, slice_get, take, All, if◌then◌else◌, is_ok, IfOk, MatchOption, Some};
ghost use Rattle.nogood_store.specs.Containers.{IsFirstContainer, NoneContains};
ghost use Rattle.nogood_store.specs.Hits.{IsHit, last_tag};
ghost use Rattle.plan_rule.specs.Yards.{choices};

use crate::Nogood;
use crate::containers::first_container;
use crate::hits::least_on;
use crate::moves::rewind;
use crate::trail::{Trail, enter, enter_again};
use crate::waits::first_block;
use code_table::Codes;
use plan_rule::PlanBox;
use shape_exact::NoMemory;
use std::alloc::Global;
use std::marker::Model;
use std::mem::swap;
use watch_chains::Chains;

/// Stored boxes and a prefix of codes. Contracts see the list of the boxes with their tags, in the order in which they
/// were added, and the entered prefix.
#[derive(Drop)]
pub struct Nogoods {
    list: Vec<Nogood>,
    chains: Chains,
    trail: Trail,
    spare: Trail,
    codes: [u32; 32],
    depth: u8,
    literals: u64,
}

impl Model for Nogoods {
    ghost use Rattle.std.specs.Prelude.{take};
    ghost use Rattle.std.specs.Vec.{vec_capacity};
    ghost use Rattle.nogood_store.specs.Hits.{PlainStore};
    ghost use Rattle.nogood_store.specs.Stores.{IsStore};

    ghost Value = { PlainStore };

    ghost view = { λ s. record { nogoods = s.list.items; prefix = take s.depth s.codes } };

    ghost invariant = { λ s.
        IsStore s.list.items s.chains s.codes s.depth s.literals s.trail.marks s.trail.steps.items
        (vec_capacity s.trail.steps) s.spare.marks (vec_capacity s.spare.steps) };
}

impl Nogoods {
    /// A store of no box, with no code entered.
    pub fn new(alloc: Global) -> Result<Nogoods, NoMemory>
        ensures nogoods { IfOk result (λ made. made.nogoods ≡ []) }
        ensures prefix { IfOk result (λ made. made.prefix ≡ []) }
    {
        Ok(Nogoods {
            list: Vec::new(alloc),
            chains: Chains::new(alloc, 33)?,
            trail: Trail::new(alloc),
            spare: Trail::new(alloc),
            codes: [0; 32],
            depth: 0,
            literals: 0,
        })
    }

    /// The number of boxes.
    pub fn len(&self) -> u32
        ensures { result ≡ length self.now.nogoods }
    {
        self.list.len() as u32
    }

    /// The number of codes that are entered.
    pub fn depth(&self) -> u8
        ensures { result ≡ length self.now.prefix }
    {
        self.depth
    }

    /// The tag of the box that stands last; None exactly where there is no box.
    pub fn last(&self) -> Option<u64>
        ensures { result ≡ last_tag self.now.nogoods }
    {
        let len = self.list.len();
        if len == 0 {
            None
        } else {
            Some(self.list[len - 1].tag)
        }
    }

    /// Puts a box and its tag last in the list, at any depth. Where memory is refused the box is dropped and nothing
    /// changes. It costs the open moves, which are undone and made again, and no walk over a chain.
    pub fn add(&mut self, part: PlanBox, tag: u64) -> Result<(), NoMemory>
        requires few { length self.old.nogoods < 65536 }
        requires blocks { All (λ l. l.block < 32) part }
        ensures nogoods { self.new.nogoods
            ≡ (if is_ok result then self.old.nogoods ++ record { part = part; tag = tag } ∷ [] else self.old.nogoods) }
        ensures prefix { self.new.prefix ≡ self.old.prefix }
    {
        let literals = self.literals + part.literals().len() as u64;
        self.chains.reserve(1, literals as u32)?;
        self.trail.steps.reserve(literals as usize)?;
        self.spare.steps.reserve(literals as usize)?;
        let chain = first_block(part.literals());
        self.list.push(Nogood { part, tag })?;
        swap(&mut self.trail, &mut self.spare);
        self.trail.steps.clear();
        rewind(&mut self.chains, 0);
        self.chains.add(chain);
        enter_again(
            &mut self.chains,
            self.list.as_slice(),
            &mut self.trail,
            &self.codes[..self.depth as usize],
            &self.spare,
        );
        self.literals = literals;
        Ok(())
    }

    /// Enters a code of the next block. Takes no memory.
    pub fn enter(&mut self, block: u8, code: u32)
        requires next { block ≡ length self.old.prefix }
        requires room { block < 32 }
        ensures nogoods { self.new.nogoods ≡ self.old.nogoods }
        ensures prefix { self.new.prefix ≡ self.old.prefix ++ code ∷ [] }
    {
        enter(
            &mut self.chains,
            self.list.as_slice(),
            &mut self.trail,
            &self.codes[..block as usize],
            code,
        );
        self.codes[block as usize] = code;
        self.depth += 1;
    }

    /// Leaves the code that was entered last. Takes no memory.
    pub fn leave(&mut self)
        requires { 0 < length self.old.prefix }
        ensures nogoods { self.new.nogoods ≡ self.old.nogoods }
        ensures prefix { self.new.prefix ≡ take (length self.old.prefix - 1) self.old.prefix }
    {
        self.depth -= 1;
        let mark = self.trail.marks[self.depth as usize];
        rewind(&mut self.chains, mark);
        self.trail.steps.truncate(mark as usize);
    }

    /// The least tag of a box that the prefix with this code of the next block hits; None exactly where none is hit. Each
    /// literal of such a box is on one of these blocks and holds its code. Takes no memory.
    pub fn hit(&self, block: u8, code: u32) -> Option<u64>
        requires next { block ≡ length self.now.prefix }
        requires room { block < 32 }
        ensures { IsHit self.now.nogoods (self.now.prefix ++ code ∷ []) result }
    {
        let codes = &self.codes[..self.depth as usize];
        let matched = least_on(&self.chains, self.list.as_slice(), 32, codes, code, None);
        least_on(
            &self.chains,
            self.list.as_slice(),
            u32::from(block),
            codes,
            code,
            matched,
        )
    }

    /// The first stored box that contains the given one, whatever blocks its literals are on; None exactly where none
    /// does. It looks at one box after another, so it costs the number of boxes. Takes no memory.
    pub fn container(&self, codes: &Codes, part: &PlanBox) -> Option<&Nogood>
        ensures { MatchOption result
            (NoneContains (choices codes.now) self.now.nogoods part.now (length self.now.nogoods))
            (λ n. IsFirstContainer (choices codes.now) self.now.nogoods part.now n.now) }
    {
        first_container(codes, self.list.as_slice(), part)
    }

    /// The box that stands at this place of the list, the first at 0; None exactly where the list ends before it. Takes no
    /// memory.
    pub fn at(&self, place: u32) -> Option<&Nogood>
        ensures { MatchOption result (length self.now.nogoods ≤ place) (λ n. slice_get self.now.nogoods place ≡ Some n.now) }
    {
        let list = self.list.as_slice();
        let place = place as usize;
        if place < list.len() {
            Some(&list[place])
        } else {
            None
        }
    }
}

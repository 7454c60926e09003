//! Chains and their moves.
ghost use Rattle.std.specs.Prelude.{◌≡◌, ℕ, ◌+◌, ◌-◌, ◌^◌, ◌<◌, ◌≤◌, List, [], ◌∷◌, ◌++◌, length, replicate, IfOk, OnOk, IfSome};
ghost use Rattle.watch_chains.specs.Lists.{entries_of, put_first, moved, first_of, Has, Lacks, AreDistinct};

use crate::nodes::{Move, Node, link, read, shift};
use shape_exact::NoMemory;
use std::alloc::Global;
use std::marker::Model;

/// Chains of entries. Contracts see the list of each chain, the lists as they were before each open move, the number of
/// entries, and how many more entries and moves take no memory.
#[derive(Drop)]
pub struct Chains {
    chains: u32,
    nodes: Vec<Node>,
    moves: Vec<Move>,
}

impl Model for Chains {
    ghost use Rattle.std.specs.Prelude.{◌-◌, ◌<◌, ◌^◌, min, reverse, length};
    ghost use Rattle.std.specs.Vec.{vec_len, vec_capacity};
    ghost use Rattle.watch_chains.specs.Lists.{Chained};
    ghost use Rattle.watch_chains.specs.Nodes.{lists_of, past_of, IsSound};

    ghost Value = { Chained };

    ghost view = { λ s. record {
      lists = lists_of s.chains s.nodes.items;
      past = past_of s.chains s.nodes.items (reverse s.moves.items);
      entries = vec_len s.nodes - s.chains;
      spare_entries = min (vec_capacity s.nodes) (2 ^ 32) - vec_len s.nodes;
      spare_moves = min (vec_capacity s.moves) (2 ^ 32 - 1) - vec_len s.moves;
    } };

    ghost invariant = { λ s.
        IsSound s.chains s.nodes.items (reverse s.moves.items) × (length s.moves.items < 2 ^ 32) };
}

impl Chains {
    /// So many empty chains.
    pub fn new(alloc: Global, chains: u32) -> Result<Chains, NoMemory>
        ensures lists { IfOk result (λ made. made.lists ≡ replicate chains []) }
        ensures past { IfOk result (λ made. made.past ≡ []) }
        ensures entries { IfOk result (λ made. made.entries ≡ 0) }
    {
        let mut nodes: Vec<Node> = Vec::with_capacity(alloc, chains as usize)?;
        for i in 0..chains {
            nodes.push(Node {
                next: i,
                prev: i,
                chain: i,
            })?;
        }
        Ok(Chains {
            chains,
            nodes,
            moves: Vec::new(alloc),
        })
    }

    /// The number of open moves.
    pub fn open_moves(&self) -> u32
        ensures { result ≡ length self.now.past }
    {
        self.moves.len() as u32
    }

    /// The chain in which an entry stands, and the only one.
    pub fn chain_of(&self, entry: u32) -> u32
        requires { entry < self.now.entries }
        ensures chain_in { result < length self.now.lists }
        ensures stands { Has entry (entries_of self.now.lists result) }
        ensures alone { (chain : ℕ) → Has entry (entries_of self.now.lists chain) → chain ≡ result }
    {
        read(self.nodes.as_slice(), (self.chains + entry) as usize).chain
    }

    /// The first entry of a chain; None exactly where the chain is empty. No entry stands in a chain twice.
    pub fn first(&self, chain: u32) -> Option<u32>
        requires { chain < length self.now.lists }
        ensures first { result ≡ first_of (entries_of self.now.lists chain) }
        ensures entry_in { IfSome result (λ entry. entry < self.now.entries) }
        ensures distinct { AreDistinct (entries_of self.now.lists chain) }
    {
        let next = read(self.nodes.as_slice(), chain as usize).next;
        if next == chain {
            None
        } else {
            Some(next - self.chains)
        }
    }

    /// The entry after another in its chain; None exactly where that is the last. An entry stands in its chain once.
    pub fn next(&self, entry: u32) -> Option<u32>
        requires { entry < self.now.entries }
        ensures next { (chain : ℕ) (before after : List ℕ) →
            entries_of self.now.lists chain ≡ before ++ entry ∷ after → result ≡ first_of after }
        ensures once { (chain : ℕ) (before after : List ℕ) →
            entries_of self.now.lists chain ≡ before ++ entry ∷ after → Lacks entry before × Lacks entry after }
        ensures entry_in { IfSome result (λ entry. entry < self.now.entries) }
    {
        let node = read(self.nodes.as_slice(), (self.chains + entry) as usize);
        if node.next == node.chain {
            None
        } else {
            Some(node.next - self.chains)
        }
    }

    /// Puts a new entry first in a chain, and answers its number.
    pub fn add(&mut self, chain: u32) -> u32
        requires spare { 0 < self.old.spare_entries }
        requires settled { self.old.past ≡ [] }
        requires chain_in { chain < length self.old.lists }
        ensures number { result ≡ self.old.entries }
        ensures lists { self.new.lists ≡ put_first self.old.lists result chain }
        ensures past { self.new.past ≡ [] }
        ensures entries { self.new.entries ≡ self.old.entries + 1 }
        ensures spare_entries { self.new.spare_entries + 1 ≡ self.old.spare_entries }
        ensures spare_moves { self.new.spare_moves ≡ self.old.spare_moves }
    {
        let node = self.nodes.len();
        self.nodes.push_reserved(Node {
            next: 0,
            prev: 0,
            chain: 0,
        });
        link(self.nodes.as_mut_slice(), node, chain as usize);
        node as u32 - self.chains
    }

    /// Takes an entry out of its chain and puts it first in the named one, which may be the same. The move is open.
    pub fn move_to(&mut self, entry: u32, chain: u32)
        requires spare { 0 < self.old.spare_moves }
        requires entry_in { entry < self.old.entries }
        requires chain_in { chain < length self.old.lists }
        ensures lists { self.new.lists ≡ moved self.old.lists entry chain }
        ensures past { self.new.past ≡ self.old.lists ∷ self.old.past }
        ensures entries { self.new.entries ≡ self.old.entries }
        ensures spare_entries { self.new.spare_entries ≡ self.old.spare_entries }
        ensures spare_moves { self.new.spare_moves + 1 ≡ self.old.spare_moves }
    {
        let node = self.chains + entry;
        let after = read(self.nodes.as_slice(), node as usize).prev;
        self.moves.push_reserved(Move { node, after });
        shift(self.nodes.as_mut_slice(), node as usize, chain as usize);
    }

    /// Undoes the last open move: each list is what it was before, in its order.
    pub fn undo(&mut self)
        requires { 0 < length self.old.past }
        ensures back { self.old.past ≡ self.new.lists ∷ self.new.past }
        ensures entries { self.new.entries ≡ self.old.entries }
        ensures spare_entries { self.new.spare_entries ≡ self.old.spare_entries }
        ensures spare_moves { self.new.spare_moves ≡ self.old.spare_moves + 1 }
    {
        if let Some(back) = self.moves.pop() {
            shift(
                self.nodes.as_mut_slice(),
                back.node as usize,
                back.after as usize,
            );
        }
    }

    /// Makes room for so many more entries and moves. After a refusal the lists are as they were, and no room is lost.
    /// Heads and entries share one range of numbers, so more than 2^32 of both are refused.
    pub fn reserve(&mut self, entries: u32, moves: u32) -> Result<(), NoMemory>
        requires entries_fit { self.old.entries + entries < 2 ^ 32 - 1 }
        requires moves_fit { length self.old.past + moves < 2 ^ 32 - 1 }
        ensures lists { self.new.lists ≡ self.old.lists }
        ensures past { self.new.past ≡ self.old.past }
        ensures entries { self.new.entries ≡ self.old.entries }
        ensures spare_entries { OnOk result (entries ≤ self.new.spare_entries) }
        ensures spare_moves { OnOk result (moves ≤ self.new.spare_moves) }
        ensures kept_entries { self.old.spare_entries ≤ self.new.spare_entries }
        ensures kept_moves { self.old.spare_moves ≤ self.new.spare_moves }
    {
        if self.nodes.len() as u64 + entries as u64 > u32::MAX as u64 + 1 {
            return Err(NoMemory);
        }
        self.nodes.reserve(entries as usize)?;
        self.moves.reserve(moves as usize)?;
        Ok(())
    }
}

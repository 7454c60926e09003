//! What a search keeps for its own choices.

use crate::levels::{Level, cost_of, levels_of};
use crate::pairs::Pairs;
use branch_kernel::Blocks;
use code_table::Codes;
use nogood_store::Nogoods;
use plan_rule::{Literal, PlanBox, block_count};
use shape_exact::NoMemory;
use std::alloc::Global;

/// The blocks whose literals refuted a code that costs so much.
#[derive(Clone, Copy, Drop)]
struct LastSide {
    cost: u32,
    marks: Blocks,
}

/// A code of a block that is settled without a box of its own, which blocks the record that covers it needs anyway, and what
/// refuted the last such code.
#[derive(Drop)]
struct Rest {
    block: u8,
    code: u32,
    needed: Blocks,
    last: Option<LastSide>,
}

/// What a search keeps for its own choices: no promise rests on it. One value may serve many searches of one yard.
#[derive(Drop)]
pub struct Hints {
    levels: Vec<Vec<Level>>,
    pairs: Pairs,
    ranks: [u8; 32],
    wanted: u32,
    nodes: u64,
    rest: Option<Rest>,
    cut: Option<Literal>,
}

impl Hints {
    /// No search has been made yet.
    #[tactic(auto, using(plan_rule::proofs::CountLaws::counts))]
    pub fn new(alloc: Global, codes: &Codes) -> Result<Hints, NoMemory> {
        let mut levels = Vec::new(alloc);
        for block in 0..block_count(codes) {
            levels.push(levels_of(alloc, codes, block)?)?;
        }
        Ok(Hints {
            levels,
            pairs: Pairs::new(alloc)?,
            ranks: [0; 32],
            wanted: u32::MAX,
            nodes: 0,
            rest: None,
            cut: None,
        })
    }

    /// How many boxes the searches have entered.
    pub fn nodes(&self) -> u64 {
        self.nodes
    }

    /// The greatest total that was wanted in the box whose fit was asked last.
    pub(crate) fn wanted(&self) -> u32 {
        self.wanted
    }

    /// The fit of a box is asked, in which no greater total is wanted.
    pub(crate) fn note_wanted(&mut self, most: u32) {
        self.wanted = most;
    }

    /// The range of the job that is searched.
    pub(crate) fn cut(&self) -> Option<Literal> {
        self.cut
    }

    /// A job is searched that has this range.
    pub(crate) fn note_cut(&mut self, range: Literal) {
        self.cut = Some(range);
    }

    /// A box is entered. That of a code past the slack of its block is not counted: its fit refutes it.
    pub(crate) fn enter(&mut self) {
        if self.rest.is_none() {
            self.nodes = self.nodes.saturating_add(1);
        }
    }

    /// No code of a range is settled.
    pub(crate) fn leave_range(&mut self) {
        self.rest = None;
    }

    /// A code of a block is settled next, which needs a box of its own or not. The record that covers it needs these blocks
    /// anyway.
    pub(crate) fn note_code(&mut self, own_box: bool, block: u8, code: u32, needs: &Blocks) {
        if own_box {
            self.rest = None;
            return;
        }
        let last = match &self.rest {
            Some(rest) => rest.last,
            None => None,
        };
        self.rest = Some(Rest {
            block,
            code,
            needed: *needs,
            last,
        });
    }

    /// Whether the record that covers a code without a box of its own needs the block anyway.
    pub(crate) fn is_needed(&self, block: u8) -> bool {
        match &self.rest {
            Some(rest) => rest.needed.has(block),
            None => false,
        }
    }

    /// The fit of these literals refuted a box.
    pub(crate) fn note_side(&mut self, codes: &Codes, side: &PlanBox) {
        if let Some(rest) = &mut self.rest {
            let mut marks = Blocks::none();
            marks.add_all(side);
            let cost = cost_of(codes, rest.block, rest.code);
            rest.last = Some(LastSide { cost, marks });
        }
    }

    /// The blocks whose literals refuted the last code without a box of its own, where it cost as much.
    pub(crate) fn last_side(&self, codes: &Codes) -> Option<Blocks> {
        let Some(rest) = &self.rest else {
            return None;
        };
        let Some(last) = rest.last else {
            return None;
        };
        if last.cost != cost_of(codes, rest.block, rest.code) {
            return None;
        }
        Some(last.marks)
    }

    /// The place in the store of a box that contains this box, if one is found: the box has the code `own`, and the
    /// store is that of all searches that these hints serve.
    pub(crate) fn find(
        &mut self,
        codes: &Codes,
        store: &Nogoods,
        part: &PlanBox,
        own: Literal,
    ) -> Option<u32> {
        self.pairs.find(codes, store, part, own)
    }

    /// How many codes of a block cost how much, ascending by cost; none past the last block.
    pub(crate) fn levels(&self, block: u8) -> &[Level] {
        let at = usize::from(block);
        if at < self.levels.len() {
            self.levels[at].as_slice()
        } else {
            &[]
        }
    }

    /// A block is branched on beside so many literals.
    pub(crate) fn note_rank(&mut self, block: u8, literals: usize) {
        if block < 32 {
            self.ranks[usize::from(block)] = literals.min(255) as u8;
        }
    }

    /// Beside how many literals the block was branched on last.
    pub(crate) fn rank(&self, block: u8) -> u8 {
        if block < 32 {
            self.ranks[usize::from(block)]
        } else {
            0
        }
    }
}

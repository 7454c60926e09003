//! The fit of a box of exact literals that grows and shrinks.
ghost use Rattle.std.specs.Prelude.{◌≡◌, true, false, ◌<◌, ◌≤◌, ◌+◌, ◌++◌, ◌∷◌, [], All, Contains, length, min, take, ◌-◌, IfOk, IfSome};
ghost use Rattle.plan_rule.specs.Bounds.{IsFit, IsLeastOf, MayFit};
ghost use Rattle.plan_rule.specs.Boxes.{exact, IsBox, LeavesFree};
ghost use Rattle.plan_rule.specs.Choices.{IsCode, blocks, count};
ghost use Rattle.plan_rule.specs.Yards.{choices};
ghost use Rattle.tardiness_bounds.specs.Besides.{HaveSameExacts, TellsBeside};
ghost use Rattle.tardiness_bounds.specs.Firsts.{IsFirst};
ghost use Rattle.tardiness_bounds.specs.Nexts.{MayFitUpTo};
ghost use Rattle.tardiness_bounds.specs.Lefts.{AreLefts, cost_of_left};
ghost use Rattle.tardiness_bounds.specs.Numbers.{number};
ghost use Rattle.tardiness_bounds.specs.Stacks.{CanPush};
ghost use Rattle.tardiness_bounds.specs.Standings.{IsStanding, StandOnce, literals_of};

use crate::beside::{Beside, what_hinders};
use crate::block::block_at;
use crate::bound::{Bound, bound_of};
use crate::clear::is_clear;
use crate::free_codes::FreeCodes;
use crate::left::{Left, add_lefts, first_lefts};
use crate::scratch::Scratch;
use crate::standing::Standing;
use crate::tables::YardTables;
use crate::walk::{next_code, walk_from};
use arrayvec::ArrayVec;
use code_table::{Codes, cost_on};
use plan_rule::{PlanBox, block_count};
use shape_exact::NoMemory;
use std::alloc::Global;
use std::marker::Model;

/// The room for what is left to 32 blocks by none of them, and again after each of 32 pushes.
const ROOM: usize = 1056;

/// Exact literals that were pushed, what each number of the first of them leaves to each block, and the lists that its
/// searches write. Contracts see it as the yard and the list of the literals, in the order of the pushes.
#[derive(Drop)]
pub struct Frontier<'a> {
    tables: &'a YardTables<'a>,
    list: ArrayVec<Standing, 32>,
    lefts: Vec<Left>,
    scratch: Scratch,
}

impl<'a> Model for Frontier<'a> {
    ghost use Rattle.std.specs.Prelude.{vec_capacity};
    ghost use Rattle.tardiness_bounds.specs.Stacks.{IsStack, PlainFrontier};
    ghost use Rattle.tardiness_bounds.specs.Standings.{literals_of};

    ghost Value = { PlainFrontier };

    ghost view = { λ s. record { yard = s.tables.now.yard; literals = literals_of s.list.items } };

    ghost invariant = { λ s. IsStack s.tables.now s.list.items s.lefts.items (vec_capacity s.lefts) };
}

/// What a block costs at least of what is left to it. None where nothing is.
fn cost_of(left: Left) -> Option<u32>
    ensures { result ≡ cost_of_left left }
{
    match left {
        Left::Stands(cost) => Some(cost),
        Left::Free(w) => Some(w.cost),
        Left::Never => None,
    }
}

/// The block at a code.
fn standing_at(tables: &YardTables<'_>, block: u8, code: u32) -> Standing
    requires { IsCode (choices tables.now.yard) block code }
    ensures block { result.block ≡ block }
    ensures code { result.code ≡ code }
    ensures standing { IsStanding tables.now.yard result }
{
    let place = tables.place(block, code);
    Standing { block, code, place }
}

/// Where the last ones begin, one for each block.
fn last_from(tables: &YardTables<'_>, lefts: &[Left]) -> usize
    requires { length tables.now.yard.blocks ≤ length lefts.now }
    ensures { result + length tables.now.yard.blocks ≡ length lefts.now }
{
    lefts.len() - usize::from(block_count(tables.codes()))
}

/// What a block costs at least of what is left to it; None where nothing is.
fn least_in(
    tables: &YardTables<'_>,
    list: &[Standing],
    lefts: &[Left],
    from: usize,
    block: u8,
) -> Option<u32>
    requires list { All (IsStanding tables.now.yard) list.now }
    requires once { StandOnce list.now }
    requires lefts { AreLefts tables.now list.now lefts.now from }
    requires block { block < blocks (choices tables.now.yard) }
    ensures least { IsLeastOf (MayFit (choices tables.now.yard) (literals_of list.now) block) ((choices tables.now.yard).cost block) result }
    ensures few { IfSome result (λ n. n ≤ 400000) }
{
    tables.codes().limits();
    let _slots = tables.slots(block);
    cost_of(lefts[from + block as usize])
}

/// The sum of what the blocks cost at least of what is left to them; None where nothing is left to one.
fn sum_of(tables: &YardTables<'_>, list: &[Standing], lefts: &[Left], from: usize) -> Option<u32>
    requires list { All (IsStanding tables.now.yard) list.now }
    requires once { StandOnce list.now }
    requires lefts { AreLefts tables.now list.now lefts.now from }
    ensures { IsFit (choices tables.now.yard) (literals_of list.now) result }
{
    let mut sum = 0;
    for block in 0..block_count(tables.codes()) {
        sum += least_in(tables, list, lefts, from, block)?;
    }
    Some(sum)
}

/// Whether none of the blocks that stand is this block.
fn leaves_free(list: &[Standing], block: u8) -> bool
    ensures yes { result ≡ true → LeavesFree (literals_of list.now) block }
    ensures no { result ≡ false → LeavesFree (literals_of list.now) block → ⊥ }
{
    for f in list {
        if f.block == block {
            return false;
        }
    }
    true
}

impl<'a> Frontier<'a> {
    /// No literal. What the tables keep of the empty frontier is copied.
    pub fn new(alloc: Global, tables: &'a YardTables<'a>) -> Result<Frontier<'a>, NoMemory>
        ensures yard { IfOk result (λ frontier. frontier.yard ≡ tables.now.yard) }
        ensures empty { IfOk result (λ frontier. frontier.literals ≡ []) }
    {
        tables.codes().limits();
        let mut scratch = Scratch::new();
        let lefts = first_lefts(alloc, tables, ROOM, &mut scratch)?;
        Ok(Frontier {
            tables,
            list: ArrayVec::new(),
            lefts,
            scratch,
        })
    }

    /// The exact literals of a box.
    pub fn of(
        alloc: Global,
        tables: &'a YardTables<'a>,
        part: &PlanBox,
    ) -> Result<Frontier<'a>, NoMemory>
        requires { IsBox (choices tables.now.yard) part.now }
        ensures yard { IfOk result (λ frontier. frontier.yard ≡ tables.now.yard) }
        ensures exacts { IfOk result (λ frontier. HaveSameExacts frontier.literals part.now) }
        ensures from { IfOk result (λ frontier. All (Contains part.now) frontier.literals) }
    {
        let mut frontier = Frontier::new(alloc, tables)?;
        for l in part.literals() {
            if l.is_exact(l.block, l.lo) {
                frontier.push(l.block, l.lo);
            }
        }
        Ok(frontier)
    }

    /// The codes of the yard.
    pub fn codes(&self) -> &Codes
        ensures { result.now ≡ self.now.yard }
    {
        self.tables.codes()
    }

    /// How many literals were pushed and not popped.
    pub fn len(&self) -> usize
        ensures { result ≡ length self.now.literals }
    {
        self.list.len()
    }

    /// Pushes the literal of one code of a block that has none. Only the witnesses that clash with it are sought anew.
    /// Takes no memory.
    pub fn push(&mut self, block: u8, code: u32)
        requires { CanPush self.old block code }
        ensures yard { self.new.yard ≡ self.old.yard }
        ensures pushed { self.new.literals ≡ self.old.literals ++ exact block code ∷ [] }
    {
        let new = standing_at(self.tables, block, code);
        let from = last_from(self.tables, self.lefts.as_slice());
        self.list.push(new);
        add_lefts(
            self.tables,
            self.list.as_slice(),
            new,
            from,
            &mut self.lefts,
            &mut self.scratch,
        );
    }

    /// Whether the literal of the code may be pushed: the code exists, and its block has no literal.
    pub fn can_push(&self, block: u8, code: u32) -> bool
        ensures yes { result ≡ true → CanPush self.now block code }
        ensures no { result ≡ false → CanPush self.now block code → ⊥ }
    {
        let codes = self.tables.codes();
        if block >= block_count(codes) {
            return false;
        }
        if code >= codes.count(block) {
            return false;
        }
        leaves_free(self.list.as_slice(), block)
    }

    /// Whether a code of a block without a literal clashes with no literal and meets no piece.
    pub fn may_fit(&self, block: u8, code: u32) -> bool
        requires { CanPush self.now block code }
        ensures yes { result ≡ true → MayFit (choices self.now.yard) self.now.literals block code }
        ensures no { result ≡ false → MayFit (choices self.now.yard) self.now.literals block code → ⊥ }
    {
        let place = self.tables.place(block, code);
        is_clear(self.tables, self.list.as_slice(), block, place)
    }

    /// What a code of a block without a literal costs, and what hinders it beside the literals, if anything does: a clash with
    /// one of them, of several the first on a block that is asked for, else the first; or else a piece.
    pub fn beside(&self, block: u8, code: u32, asked: &[bool; 32]) -> Beside
        requires { CanPush self.now block code }
        ensures { TellsBeside (choices self.now.yard) self.now.literals block code result }
    {
        let place = self.tables.place(block, code);
        let cost = cost_on(block_at(self.tables.codes(), block), place.end);
        let hindrance = what_hinders(self.tables, self.list.as_slice(), block, place, asked);
        Beside { cost, hindrance }
    }

    /// Undoes the last push.
    pub fn pop(&mut self)
        requires { 0 < length self.old.literals }
        ensures yard { self.new.yard ≡ self.old.yard }
        ensures popped { self.new.literals ≡ take (length self.old.literals - 1) self.old.literals }
    {
        let from = last_from(self.tables, self.lefts.as_slice());
        self.list.pop();
        self.lefts.truncate(from);
    }

    /// The fit of the box of the literals. Takes no memory.
    pub fn bound(&self) -> Bound
        ensures { IsFit (choices self.now.yard) self.now.literals (number result) }
    {
        let list = self.list.as_slice();
        let lefts = self.lefts.as_slice();
        bound_of(sum_of(self.tables, list, lefts, last_from(self.tables, lefts)))
    }

    /// The least own cost of the codes of a block that clash with no literal and meet no piece; None where there is none. Of a
    /// block with a literal, the cost of its code.
    pub fn least(&self, block: u8) -> Option<u32>
        requires { block < blocks (choices self.now.yard) }
        ensures { IsLeastOf (MayFit (choices self.now.yard) self.now.literals block) ((choices self.now.yard).cost block) result }
    {
        let list = self.list.as_slice();
        let lefts = self.lefts.as_slice();
        least_in(
            self.tables,
            list,
            lefts,
            last_from(self.tables, lefts),
            block,
        )
    }

    /// The next code of a block without a literal, from `code` on, that clashes with no literal, meets no piece and costs at
    /// most `most`. None where there is none. Takes no memory. To go on from there, `free_codes` keeps where it stands.
    pub fn next_free(&self, block: u8, code: u32, most: u32) -> Option<u32>
        requires block { block < blocks (choices self.now.yard) }
        requires free { LeavesFree self.now.literals block }
        ensures { IsFirst (MayFitUpTo (choices self.now.yard) self.now.literals block most) code (count (choices self.now.yard) block) result }
    {
        let mut walk = walk_from(code.min(self.tables.codes().count(block)));
        next_code(self.tables, self.list.as_slice(), block, most, &mut walk)
    }

    /// All those codes, ascending. Each is found from where the last one stands: codes that share their start, plate and
    /// turn are walked by rows, and those that cost too much are passed over. Takes no memory.
    pub fn free_codes(&self, block: u8, code: u32, most: u32) -> FreeCodes<'_>
        requires block { block < blocks (choices self.now.yard) }
        requires free { LeavesFree self.now.literals block }
        ensures yard { result.yard ≡ self.now.yard }
        ensures literals { result.literals ≡ self.now.literals }
        ensures block { result.block ≡ block }
        ensures most { result.most ≡ most }
        ensures from { result.from ≡ min code (count (choices self.now.yard) block) }
    {
        let from = code.min(self.tables.codes().count(block));
        FreeCodes::of(self.tables, self.list.as_slice(), block, from, most)
    }
}

//! The free codes of a block, one after another.
ghost use Rattle.std.specs.Prelude.{◌≡◌, ◌<◌, ◌≤◌, ◌-◌, All, length};
ghost use Rattle.std.specs.Iterator.{at_most};
ghost use Rattle.code_table.specs.Placements.{placements};
ghost use Rattle.plan_rule.specs.Boxes.{LeavesFree};
ghost use Rattle.plan_rule.specs.Choices.{count};
ghost use Rattle.plan_rule.specs.Yards.{choices};
ghost use Rattle.tardiness_bounds.specs.FreeCodes.{GivesNext};
ghost use Rattle.tardiness_bounds.specs.Standings.{IsStanding, StandOnce, literals_of};

use crate::standing::Standing;
use crate::tables::YardTables;
use crate::walk::{Walk, next_code, walk_from};
use std::marker::Model;

/// The codes of a block without a literal that clash with no literal, meet no piece and cost at most so much, ascending
/// from a code on. It keeps where it stands: the codes with its start, plate and turn, what stands near them, and its row
/// and column. Contracts see it as the yard, the literals, the block, that cost, and the code from which on the next one is.
#[derive(Drop)]
pub struct FreeCodes<'a> {
    tables: &'a YardTables<'a>,
    list: &'a [Standing],
    block: u8,
    most: u32,
    walk: Walk,
}

impl<'a> Model for FreeCodes<'a> {
    ghost use Rattle.tardiness_bounds.specs.FreeCodes.{AreFreeCodes, PlainFreeCodes};
    ghost use Rattle.tardiness_bounds.specs.Standings.{literals_of};

    ghost Value = { PlainFreeCodes };

    ghost view = { λ s. record { yard = s.tables.now.yard; literals = literals_of s.list.now; block = s.block; most = s.most; from = s.walk.from } };

    ghost invariant = { λ s. AreFreeCodes s.tables.now.yard s.list.now s.block s.most s.walk };
}

impl<'a> FreeCodes<'a> {
    /// Those from a code on.
    pub(crate) fn of(
        tables: &'a YardTables<'a>,
        list: &'a [Standing],
        block: u8,
        code: u32,
        most: u32,
    ) -> FreeCodes<'a>
        requires list { All (IsStanding tables.now.yard) list.now }
        requires once { StandOnce list.now }
        requires few { length list.now ≤ 32 }
        requires block { block < length tables.now.yard.blocks }
        requires free { LeavesFree (literals_of list.now) block }
        requires code { code ≤ length (placements tables.now.yard block) }
        ensures yard { result.yard ≡ tables.now.yard }
        ensures literals { result.literals ≡ literals_of list.now }
        ensures block { result.block ≡ block }
        ensures most { result.most ≡ most }
        ensures from { result.from ≡ code }
    {
        FreeCodes {
            tables,
            list,
            block,
            most,
            walk: walk_from(code),
        }
    }
}

impl<'a> Iterator for FreeCodes<'a> {
    type Item = u32;

    ghost next_gives = { GivesNext };

    ghost remaining = { λ s. at_most (count (choices s.yard) s.block - s.from) };

    fn next(&mut self) -> Option<u32> {
        next_code(
            self.tables,
            self.list,
            self.block,
            self.most,
            &mut self.walk,
        )
    }
}

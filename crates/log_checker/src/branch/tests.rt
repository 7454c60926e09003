//! Branches worked by hand: codes that clash, codes that citations cover, and the first of the others.
ghost use Rattle.std.specs.Prelude.{◌≡◌, ◌+◌, ◌<◌, All, IsTrue, length};
ghost use Rattle.shape_exact.specs.Yards.{IsBlock};
ghost use Rattle.plan_rule.specs.Yards.{choices};
ghost use Rattle.log_checker.specs.Forms.{HasForm};

use super::branch_fault;
use crate::form::has_form;
use crate::judge::Judge;
use crate::mask::Masks;
use crate::tests::yards::has_block;
use code_table::{Codes, can_be_planned};
use refutation_log::{Record, read_log};
use shape_exact::{Block, DayList, Name, NoMemory, Plate, Shape, Yard};
use std::alloc::Global;
use std::process::Abort;
use std::test::Fail;

/// Four earlier records, and branches of block 1 beside block 0 at code 2.
const LOG: &[u8] = b"log 1\nbranch 1 0 2 - -\nbranch 1 3 5 0:2 -\nbranch 1 3 6 0:1 -\nfit 0:2..4\n\
    branch 1 0 6 0:2 -\nbranch 1 2 3 0:2 -\nbranch 1 0 6 0:2 0\nbranch 1 0 6 0:2 0,1\nbranch 1 0 6 0:2 0,1,2\n\
    branch 1 0 5 0:2 0,1\nbranch 1 0 6 0:2 3\nbranch 1 1 5 0:2 1\nend\n";

/// A block of this name: a triangle for one day.
fn triangle(name: Name) -> Block
    ensures limits { IsBlock result }
    ensures name { result.name ≡ name }
{
    let _bytes = name.bytes();
    Block {
        name,
        shape: Shape::default(),
        turns: [true, false, false, false],
        duration: 1,
        release: 0,
        due: 0,
        weight: 1,
        early: 0,
    }
}

/// Adds a triangle of this name.
fn add_triangle(rt: &impl Abort, yard: &mut Yard, name: Name)
    ensures plates { yard.new.plates ≡ yard.old.plates }
    ensures blocks { length yard.new.blocks ≡ length yard.old.blocks + 1 }
{
    let block = triangle(name);
    assert!(rt; yard.blocks().len() < 32 && !has_block(yard.blocks(), block.name.bytes()));
    yard.add_block(block);
}

/// Two triangles of one day each on a plate of two places in 3 days: code 2 s + x is from day s at place x.
fn triangles(rt: &impl Abort) -> Yard
    ensures plates { length result.plates ≡ 1 }
    ensures blocks { length result.blocks ≡ 2 }
{
    let mut yard = Yard::start(3);
    yard.add_plate(Plate {
        name: Name::default(),
        width: 2,
        height: 1,
        pitch: 1,
        closed: DayList::empty(),
    });
    add_triangle(rt, &mut yard, Name::default());
    add_triangle(rt, &mut yard, Name::read(b"B").expect(rt, "a name"));
    yard
}

/// Whether each record has the form of one.
fn have_form(codes: &Codes, list: &[Record]) -> bool
    ensures { IsTrue result → All (HasForm (choices codes.now)) list.now }
{
    for entry in list {
        if !has_form(codes, entry) {
            return false;
        }
    }
    true
}

/// Whether each number is below another.
fn are_below(list: &[u64], count: usize) -> bool
    ensures { IsTrue result → All (λ k. k < count) list.now }
{
    for k in list {
        if *k as usize >= count {
            return false;
        }
    }
    true
}

/// The first code that a branch leaves uncovered.
fn left(
    rt: &impl Abort,
    alloc: Global,
    codes: &Codes,
    earlier: &[Record],
    entry: &Record,
) -> Result<Option<u32>, NoMemory> {
    assert!(rt; have_form(codes, earlier) && has_form(codes, entry));
    match entry {
        Record::Branch {
            block,
            lo,
            hi,
            side,
            cites,
        } => {
            assert!(rt; are_below(cites.list(), earlier.len()));
            let mut masks = Masks::new(alloc)?;
            let judge = Judge { codes, claim: None };
            branch_fault(
                alloc, &judge, &mut masks, earlier, *block, *lo, *hi, side, cites,
            )
        }
        Record::Fit { .. } => Ok(None),
        Record::Energy { .. } => Ok(None),
    }
}

/// Code 2 clashes with block 0. The first record covers codes 0 and 1, the second 3 and 4, the third none beside code 2
/// of block 0, and the fourth each code.
#[test]
fn a_branch_leaves_its_first_uncovered_code(rt: HostRuntime) -> Result<(), Fail> {
    let yard = triangles(&rt);
    assert!(rt; can_be_planned(&yard));
    let codes = Codes::new(rt.alloc(), &yard)?;
    assert_eq!(rt; (codes.count(0), codes.count(1)), (6, 6));
    let log = read_log(rt.alloc(), LOG)?;
    assert!(rt; log.records().len() == 12);
    let (earlier, branches) = log.records().split_at(4);
    let found = [
        Some(0),
        None,
        Some(3),
        Some(5),
        Some(5),
        None,
        None,
        Some(1),
    ];
    for (entry, want) in branches.iter().zip(found.iter()) {
        assert_eq!(rt; left(&rt, rt.alloc(), &codes, earlier, entry)?, *want);
    }
    Ok(())
}

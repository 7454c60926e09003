//! Made sequences of calls: the store and the plain list give the same answers.
ghost use Rattle.std.specs.Prelude.{◌≡◌, ◌<◌, ◌≤◌, All, IfOk, length};
ghost use Rattle.plan_rule.specs.Boxes.{AreLiterals};

use crate::stored::plain::Plain;
use nogood_store::Nogoods;
use plan_rule::{Literal, PlanBox};
use shape_exact::NoMemory;
use std::alloc::Global;
use std::process::Abort;

/// How many blocks the made boxes speak of, and how many codes each of them has.
const BLOCKS: u8 = 6;

const CODES: u32 = 4;

/// Numbers that look random: x after x times 6364136223846793005 plus 1442695040888963407.
#[derive(Drop)]
struct Dice(u64);

impl Dice {
    /// A number below `sides`.
    fn roll(&mut self, sides: u32) -> u32
        requires { 0 < sides }
        ensures { result < sides }
    {
        self.0 = self
            .0
            .wrapping_mul(6_364_136_223_846_793_005)
            .wrapping_add(1_442_695_040_888_963_407);
        ((self.0 >> 33) % u64::from(sides)) as u32
    }
}

/// A literal on every second block or so, with a range of one to four codes.
fn made_box(alloc: Global, dice: &mut Dice) -> Result<Vec<Literal>, NoMemory>
    ensures literals { IfOk result (λ made. AreLiterals made.items) }
    ensures below { IfOk result (λ made. All (λ l. l.block < 32) made.items) }
{
    let mut list: Vec<Literal> = Vec::new(alloc);
    for block in 0..BLOCKS {
        if dice.roll(2) == 0 {
            let lo = dice.roll(CODES);
            let hi = lo + 1 + dice.roll(CODES - lo);
            list.push(Literal { block, lo, hi })?;
        }
    }
    Ok(list)
}

/// Asks both for each code of the next block.
fn agree(rt: &impl Abort, store: &Nogoods, plain: &Plain) {
    assert_eq!(rt; store.len() as usize, plain.len());
    assert_eq!(rt; store.depth() as usize, plain.depth());
    assert_eq!(rt; store.last(), plain.last());
    if store.depth() < BLOCKS {
        for code in 0..CODES {
            assert_eq!(rt; store.hit(store.depth(), code), plain.hit(code));
        }
    }
}

/// A call on both: in three of eight a box comes in, in three a code is entered, in two one is left.
fn call(
    alloc: Global,
    dice: &mut Dice,
    store: &mut Nogoods,
    plain: &mut Plain,
) -> Result<(), NoMemory> {
    let kind = dice.roll(8);
    if kind < 3 {
        let literals = made_box(alloc, dice)?;
        let tag = u64::from(dice.roll(16));
        let part = PlanBox::new(alloc, literals.as_slice())?;
        if store.len() < 65_536 {
            store.add(part, tag)?;
            plain.add(literals, tag)?;
        }
    } else if kind < 6 {
        if store.depth() < BLOCKS {
            let code = dice.roll(CODES);
            store.enter(store.depth(), code);
            plain.enter(code)?;
        }
    } else if store.depth() > 0 {
        store.leave();
        plain.leave();
    }
    Ok(())
}

#[test]
fn answers_are_those_of_the_plain_list(rt: HostRuntime) -> Result<(), NoMemory> {
    let alloc = rt.alloc();
    let mut dice = Dice(1);
    for _sequence in 0..3000 {
        let mut store = Nogoods::new(alloc)?;
        let mut plain = Plain::new(alloc);
        for _call in 0..40 {
            call(alloc, &mut dice, &mut store, &mut plain)?;
            agree(&rt, &store, &plain);
        }
    }
    Ok(())
}

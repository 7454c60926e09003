//! The regions of the first halves of one block, worked by hand.

use code_table::{Codes, can_be_planned};
use plan_rule::{Job, Literal, PlanBox, Region, halves, region_of};
use shape_exact::{Block, DayList, Name, Plate, Shape, Yard};
use std::test::Fail;

/// A triangle of extent 1 by 1 on a plate of 4 by 3 in 10 days: 9 starts of two days at 12 places, 108 codes.
fn triangle() -> Yard {
    let mut yard = Yard::start(10);
    yard.add_plate(Plate {
        name: Name::default(),
        width: 4,
        height: 3,
        pitch: 1,
        closed: DayList::empty(),
    });
    yard.add_block(Block {
        name: Name::default(),
        shape: Shape::default(),
        turns: [true, false, false, false],
        duration: 2,
        release: 0,
        due: 1,
        weight: 1,
        early: 0,
    });
    yard
}

/// How many blocks the region fixes, and the range of the next.
fn seen(region: Region) -> Option<(usize, u32, u32)> {
    match region {
        Region::Empty => None,
        Region::Part { exact, lo, hi } => Some((exact.codes().len(), lo, hi)),
    }
}

#[test]
fn halves_of_one_block(rt: HostRuntime) -> Result<(), Fail> {
    let yard = triangle();
    assert!(rt; can_be_planned(&yard));
    let codes = Codes::new(rt.alloc(), &yard)?;
    assert_eq!(rt; seen(region_of(&codes, Job::root())), Some((0, 0, 108)));
    let Some((lower, upper)) = halves(Job::root()) else {
        assert!(rt; false);
        return Ok(());
    };
    assert_eq!(rt; (lower.word(), upper.word()), (1, 137_438_953_473));
    assert_eq!(rt; seen(region_of(&codes, lower)), Some((0, 0, 54)));
    assert_eq!(rt; seen(region_of(&codes, upper)), Some((0, 54, 108)));
    let range = PlanBox::new(
        rt.alloc(),
        &[Literal {
            block: 0,
            lo: 54,
            hi: 108,
        }],
    )?;
    let one = PlanBox::new(rt.alloc(), &[Literal::exact(0, 54)])?;
    assert!(rt; range.contains(&codes, &one));
    assert!(rt; !one.contains(&codes, &range));
    Ok(())
}

//! Best plans beside fixed pieces and with a cost for being early, worked by hand on yards of one plate and one block.

use crate::best_plan;
use plan_rule::path;
use sample_yards::codes_of;
use std::alloc::Global;
use std::process::Abort;
use std::test::Fail;

/// What is told of a best plan: its code and path number, the block's start, end, x and y, and its own cost.
type Told = (u32, u32, u16, u16, u16, u16, u32);

/// What the best plan tells of the yard of a plate of 4 by 3, of pitch 1, and a square of side 2 and weight 1, with the rest of
/// the file's lines; None where no plan is feasible.
fn told(
    rt: &impl Abort,
    alloc: Global,
    days: u16,
    closed: &str,
    square: &str,
    pieces: &str,
) -> Result<Option<Told>, Fail> {
    let text = format!(in alloc;
        "version=3\ndays={days}\nplate=[{{name='P',width=4,height=3,closed=[{closed}]}}]\n\
        block=[{{name='A',shape=[[0,0],[2,0],[2,2],[0,2]],{square}}}]\nfixed=[{pieces}]\n"
    )?;
    let codes = codes_of(alloc, text.as_bytes())?;
    let Some(plan) = best_plan(alloc, &codes)? else {
        return Ok(None);
    };
    let _yard = codes.yard();
    let list = plan.codes();
    assert!(rt; !list.is_empty());
    let code = list[0];
    assert!(rt; code < codes.count(0));
    let place = codes.place(0, code);
    Ok(Some((
        code,
        path(&codes, &plan),
        place.start,
        place.end,
        place.x,
        place.y,
        codes.own_cost(0, code),
    )))
}

/// A square without a piece, beside one of its size, after one that fills the plate on day 0, and with one that never goes.
#[test]
fn pieces_are_kept_clear(rt: HostRuntime) -> Result<(), Fail> {
    let square = "duration=2,due=1";
    let small = "{plate='P',shape=[[0,0],[2,0],[2,2],[0,2]],x=0,y=0,from=0,to=1}";
    let filling = "{plate='P',shape=[[0,0],[4,0],[4,3],[0,3]],x=0,y=0,from=0,to=0}";
    let standing = "{plate='P',shape=[[0,0],[4,0],[4,3],[0,3]],x=0,y=0,from=0,to=9}";
    for (pieces, wanted) in [
        ("", Some((0, 0, 0, 1, 0, 0, 0))),
        (small, Some((2, 201_326_592, 0, 1, 2, 0, 0))),
        (standing, None),
    ] {
        let found = told(&rt, rt.alloc(), 10, "", square, pieces)?;
        assert_eq!(rt; found, wanted);
    }
    let after = told(&rt, rt.alloc(), 10, "", square, filling)?.expect(&rt, "a plan");
    assert_eq!(rt;
        (after.2, after.3, after.4, after.5, after.6),
        (1, 2, 0, 0, 1)
    );
    Ok(())
}

/// A square that ends on its due day, one that cannot wait so long, and one whose due day is closed, where the earlier of two
/// days that cost the same is taken.
#[test]
fn early_ends_cost(rt: HostRuntime) -> Result<(), Fail> {
    for (days, closed, square, wanted) in [
        (10, "", "duration=2,due=5,early=2", (4, 5, 0)),
        (4, "", "duration=2,due=5,early=2", (2, 3, 4)),
        (10, "5", "duration=1,due=5,early=1", (4, 4, 1)),
    ] {
        let best = told(&rt, rt.alloc(), days, closed, square, "")?.expect(&rt, "a plan");
        assert_eq!(rt; (best.2, best.3, best.6), wanted);
    }
    Ok(())
}

//! The best plans of small yards, worked by hand.

mod pieces;

use crate::best_plan;
use sample_yards::codes_in;
use std::alloc::Global;
use std::test::Fail;

/// The codes of the best plan of the yard with these days, plates and blocks; none where no plan is feasible.
fn best_codes(
    alloc: Global,
    days: u16,
    plates: &str,
    blocks: &str,
) -> Result<Option<Vec<u32>>, Fail> {
    let codes = codes_in(alloc, days, plates, blocks)?;
    match best_plan(alloc, &codes)? {
        Some(plan) => Ok(Some(plan.codes().to_vec(alloc)?)),
        None => Ok(Some(Vec::new(alloc))),
    }
}

/// Two squares that do not fit side by side share a plate in turn, the one that is late being the one of less weight,
/// or the second of the list; two triangles share it at once where one may be turned.
#[test]
fn best_plans_of_small_yards(rt: HostRuntime) -> Result<(), Fail> {
    let plate = "{name='P',width=4,height=3}";
    let low = "{name='P',width=3,height=2}";
    let closed = "{name='P',width=2,height=2,closed=[5]}";
    let tall = "{name='P',width=4,height=4}";
    let one = "{name='A',shape=[[0,0],[2,0],[2,2],[0,2]],duration=2,due=1}";
    let equal = "{name='A',weight=5,shape=[[0,0],[3,0],[3,3],[0,3]],duration=2,due=1},\
        {name='B',weight=5,shape=[[0,0],[3,0],[3,3],[0,3]],duration=2,due=1}";
    let lighter = "{name='A',weight=1,shape=[[0,0],[3,0],[3,3],[0,3]],duration=2,due=1},\
        {name='B',weight=5,shape=[[0,0],[3,0],[3,3],[0,3]],duration=2,due=1}";
    let turning = "{name='A',turns=[0,2],shape=[[0,0],[4,0],[0,4]],duration=1,due=0},\
        {name='B',turns=[0,2],shape=[[0,0],[4,0],[0,4]],duration=1,due=0}";
    let fixed = "{name='A',shape=[[0,0],[4,0],[0,4]],duration=1,due=0},\
        {name='B',shape=[[0,0],[4,0],[0,4]],duration=1,due=0}";
    let across = "{name='A',release=4,shape=[[0,0],[2,0],[2,2],[0,2]],duration=2,due=6}";
    let three = "{name='A',weight=2,shape=[[0,0],[2,0],[2,2],[0,2]],duration=2,due=1},\
        {name='B',weight=3,shape=[[0,0],[1,0],[1,2],[0,2]],duration=2,due=1},\
        {name='C',weight=4,shape=[[0,0],[1,0],[1,1],[0,1]],duration=1,due=1}";
    let none: &[u32] = &[];
    for (days, plates, blocks, best) in [
        (10, plate, one, [0].as_slice()),
        (10, plate, equal, [0, 4].as_slice()),
        (10, plate, lighter, [4, 0].as_slice()),
        (1, tall, turning, [0, 1].as_slice()),
        (1, tall, fixed, none),
        (10, closed, across, [0].as_slice()),
        (10, low, three, [2, 2, 0].as_slice()),
        (10, "{name='P',width=1,height=3}", one, none),
    ] {
        let found = best_codes(rt.alloc(), days, plates, blocks)?;
        assert!(rt;
            found.is_some_and(|codes| codes.as_slice() == best),
            "{blocks}"
        );
    }
    Ok(())
}

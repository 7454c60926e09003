//! The example worked by hand, and made sequences of calls beside the plain list of boxes.
mod made;
mod plain;

use nogood_store::Nogoods;
use plan_rule::{Literal, PlanBox};
use shape_exact::NoMemory;

#[test]
fn hits_of_two_boxes(rt: HostRuntime) -> Result<(), NoMemory> {
    let alloc = rt.alloc();
    let mut store = Nogoods::new(alloc)?;
    assert_eq!(rt; store.last(), None);
    let codes_4_and_5 = Literal {
        block: 1,
        lo: 4,
        hi: 6,
    };
    store.add(PlanBox::new(alloc, &[Literal::exact(0, 0)])?, 3)?;
    store.add(
        PlanBox::new(alloc, &[Literal::exact(0, 0), codes_4_and_5])?,
        1,
    )?;
    assert_eq!(rt; store.hit(0, 0), Some(3));
    assert_eq!(rt; store.hit(0, 1), None);
    store.enter(0, 0);
    assert_eq!(rt; store.depth(), 1);
    assert_eq!(rt; store.hit(1, 4), Some(1));
    assert_eq!(rt; store.hit(1, 6), Some(3));
    store.leave();
    assert_eq!(rt; store.hit(0, 0), Some(3));
    assert_eq!(rt; store.hit(0, 1), None);
    assert_eq!(rt; store.last(), Some(1));
    assert_eq!(rt; store.len(), 2);
    Ok(())
}

//! Records that are written into an empty log, and a box that rests on a tie.

use branch_kernel::{Shown, keep_box, write_energy, write_fit};
use nogood_store::Nogoods;
use plan_rule::PlanBox;
use refutation_log::Log;
use shape_exact::NoMemory;

#[test]
fn records_are_numbered_and_a_tie_is_not_stored(rt: HostRuntime) -> Result<(), NoMemory> {
    let alloc = rt.alloc();
    let side = PlanBox::new(alloc, &[])?;
    let mut log = Log::new(alloc);
    assert_eq!(rt; write_energy(alloc, &mut log, 0, 1, &side)?, 0);
    assert_eq!(rt; write_fit(alloc, &mut log, &side)?, 1);
    let mut store = Nogoods::new(alloc)?;
    keep_box(
        &mut store,
        PlanBox::new(alloc, &[])?,
        Shown {
            number: 1,
            tie: true,
        },
    );
    assert_eq!(rt; store.last(), None);
    keep_box(
        &mut store,
        PlanBox::new(alloc, &[])?,
        Shown {
            number: 0,
            tie: false,
        },
    );
    assert_eq!(rt; store.last(), Some(0));
    Ok(())
}

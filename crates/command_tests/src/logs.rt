//! What a log shows of two plans of one total.

use super::calling::is_shown_best;
use super::regions::codes_of;
use super::yards::*;
use plan_text::read_plan;
use refutation_log::read_log;
use std::test::Fail;

const AT_0: &[u8] = b"plan 1
block A plate P turn 0 x 0 y 0 start 0 end 1 tardiness 0
total 0
";

const AT_1: &[u8] = b"plan 1
block A plate P turn 0 x 1 y 0 start 0 end 1 tardiness 0
total 0
";

#[test]
fn the_first_of_two_plans_of_one_total_is_shown_best(rt: HostRuntime) -> Result<(), Fail> {
    let parts = [TEN_DAYS, PLATE_4X3, A, SQUARE_2, TWO_DAYS_DUE_1];
    let Some(codes) = codes_of(rt.alloc(), &parts) else {
        assert!(rt; false, "the yard has codes");
        return Ok(());
    };
    let log = read_log(rt.alloc(), b"log 1\nbranch 0 0 54 - -\nend\n")?;
    for (text, shown) in [(AT_0, true), (AT_1, false)] {
        match read_plan(rt.alloc(), &codes, text) {
            Ok(Some(plan)) => {
                let copy = plan.copy(rt.alloc())?;
                assert_eq!(rt; copy.codes(), plan.codes());
                assert_eq!(rt; is_shown_best(rt.alloc(), &codes, &copy, &log)?, shown);
            }
            _ => assert!(rt; false, "the text is a plan's"),
        }
    }
    Ok(())
}

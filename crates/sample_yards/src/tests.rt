//! The sample yards are read, and have the numbers of codes that were counted by hand.

use crate::{ONE_BLOCK, ONE_CODE, TWO_SQUARES, TWO_TRIANGLES, codes_in, codes_of};
use code_table::Codes;
use std::test::Fail;

/// How many codes the first and the last block have.
fn counts(codes: &Codes) -> (u32, u32) {
    let blocks = codes.yard().blocks().len() as u8;
    (codes.count(0), codes.count(blocks - 1))
}

/// Nine starts with 3 by 2 places, nine with 2 by 1, one, and one: a triangle fills its square.
#[test]
fn sample_yards_have_these_codes(rt: HostRuntime) -> Result<(), Fail> {
    for (text, wanted) in [
        (ONE_BLOCK, (54, 54)),
        (TWO_SQUARES, (18, 18)),
        (ONE_CODE, (1, 18)),
        (TWO_TRIANGLES, (1, 1)),
    ] {
        let codes = codes_of(rt.alloc(), text)?;
        assert_eq!(rt; counts(&codes), wanted);
    }
    Ok(())
}

#[test]
fn parts_of_a_yard_make_its_text(rt: HostRuntime) -> Result<(), Fail> {
    let codes = codes_in(
        rt.alloc(),
        10,
        "{name='P',width=4,height=3}",
        "{name='A',shape=[[0,0],[2,0],[2,2],[0,2]],duration=2,due=1}",
    )?;
    assert_eq!(rt; counts(&codes), (54, 54));
    Ok(())
}

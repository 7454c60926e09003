//! Frontiers after random pushes and pops, against the plain definition.

use super::boxes::{count_of, fit_of};
use super::plain;
use super::yards::{codes_of, drawn_yard, next};
use code_table::Codes;
use plan_rule::block_count;
use std::alloc::Global;
use std::process::Abort;
use std::test::Fail;
use tardiness_bounds::{Frontier, YardTables};

/// The free codes from a code on are those of the definition, one after another.
fn agrees_from(
    rt: &impl Abort,
    frontier: &Frontier<'_>,
    literals: &[(u8, u32)],
    block: u8,
    code: u32,
    most: u32,
) {
    let codes = frontier.codes();
    assert!(rt; frontier.can_push(block, code));
    let mut at = code;
    for found in frontier.free_codes(block, code, most) {
        let next = plain::next_free(rt, codes, literals, block, at, most);
        assert_eq!(rt; Some(found), next);
        at = found.wrapping_add(1);
    }
    assert_eq!(rt;
        plain::next_free(rt, codes, literals, block, at, most),
        None
    );
}

/// The frontier answers of a block what the definition says.
fn agrees_on(
    rt: &impl Abort,
    frontier: &Frontier<'_>,
    literals: &[(u8, u32)],
    block: u8,
    seed: u32,
) {
    let codes = frontier.codes();
    assert!(rt; block < block_count(codes));
    assert_eq!(rt;
        frontier.least(block),
        plain::least(rt, codes, literals, block)
    );
    let count = count_of(codes, block);
    if count == 0 {
        return;
    }
    let code = (seed >> 8) % count;
    if frontier.can_push(block, code) {
        let fits = plain::may_fit(rt, codes, literals, block, code);
        assert_eq!(rt; frontier.may_fit(block, code), fits);
        for most in [u32::MAX, (seed >> 4) % 6] {
            let found = frontier.next_free(block, code, most);
            assert_eq!(rt;
                found,
                plain::next_free(rt, codes, literals, block, code, most)
            );
            agrees_from(rt, frontier, literals, block, code, most);
        }
    } else {
        assert!(rt; plain::exact_at(literals, block).is_some());
    }
}

/// Pushes a random code of a random block, where it may, or pops.
fn step(
    rt: &impl Abort,
    frontier: &mut Frontier<'_>,
    literals: &mut Vec<(u8, u32)>,
    seed: u32,
) -> Result<(), Fail> {
    let block = ((seed >> 20) % 6) as u8;
    let pops = (seed >> 28) % 3 == 0;
    if pops {
        assert_eq!(rt; frontier.len(), literals.len());
        if frontier.len() > 0 {
            frontier.pop();
            literals.pop();
        }
        return Ok(());
    }
    let code = (seed >> 9) % 64;
    if frontier.can_push(block, code) {
        frontier.push(block, code);
        literals.push((block, code))?;
    }
    Ok(())
}

/// The literals, ascending by block.
fn ascending(alloc: Global, literals: &[(u8, u32)]) -> Result<Vec<(u8, u32)>, Fail> {
    let mut list = Vec::new(alloc);
    for block in 0..32 {
        if let Some(code) = plain::exact_at(literals, block) {
            list.push((block, code))?;
        }
    }
    Ok(list)
}

/// Walks so many steps over a yard.
fn walk(rt: &impl Abort, alloc: Global, codes: &Codes, first: u32, steps: u32) -> Result<(), Fail> {
    let tables = YardTables::new(alloc, codes)?;
    let mut frontier = Frontier::new(alloc, &tables)?;
    let mut literals = Vec::new(alloc);
    let mut seed = first;
    assert!(rt; block_count(codes) > 0);
    for k in 0..steps {
        seed = next(seed);
        step(rt, &mut frontier, &mut literals, seed)?;
        let bound = plain::fit(rt, codes, literals.as_slice());
        assert_eq!(rt; frontier.bound(), bound);
        let block = (k % u32::from(block_count(codes))) as u8;
        agrees_on(rt, &frontier, literals.as_slice(), block, seed);
        if k % 16 == 0 {
            let list = ascending(alloc, literals.as_slice())?;
            assert_eq!(rt; fit_of(rt, alloc, codes, list.as_slice())?, bound);
        }
    }
    Ok(())
}

/// Pushes and pops on yards with pieces, closed days, turns and early costs.
#[test]
fn frontiers_agree_with_the_definition(rt: HostRuntime) -> Result<(), Fail> {
    for first in 1..13 {
        let yard = drawn_yard(&rt, first);
        let codes = codes_of(&rt, rt.alloc(), &yard)?;
        walk(&rt, rt.alloc(), &codes, first, 250)?;
    }
    Ok(())
}

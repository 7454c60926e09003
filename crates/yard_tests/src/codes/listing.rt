//! All placements of a block, by five nested loops.

use code_table::Placement;
use shape_exact::{Block, Plate, Yard};
use std::alloc::Global;
use std::process::Abort;
use std::test::Fail;

/// The day on which work ends, one open day after another.
fn end_of(plate: &Plate, days: u16, start: u16, duration: u16) -> Option<u16> {
    if plate.closed.has(start) {
        return None;
    }
    let mut left = duration;
    for day in start..days {
        if !plate.closed.has(day) {
            if left <= 1 {
                return Some(day);
            }
            left -= 1;
        }
    }
    None
}

/// The placements of the block, by start, plate, turn, y and x.
pub(crate) fn listing(
    rt: &impl Abort,
    alloc: Global,
    yard: &Yard,
    number: u8,
) -> Result<Vec<Placement>, Fail> {
    let mut placed = Vec::new(alloc);
    assert!(rt; (number as usize) < yard.blocks().len());
    let block = &yard.blocks()[number as usize];
    for start in block.release..yard.days() {
        for (p, plate) in yard.plates().iter().enumerate() {
            let Some(end) = end_of(plate, yard.days(), start, block.duration) else {
                continue;
            };
            assert!(rt; p < 8 && plate.pitch > 0);
            for turn in 0..4u8 {
                if !block.turns[turn as usize] {
                    continue;
                }
                let (long, high) = block.shape.turned(turn).extent();
                for y in 0..=plate.height {
                    for x in 0..=plate.width {
                        if y % plate.pitch == 0
                            && x % plate.pitch == 0
                            && y as i32 + high <= plate.height as i32
                            && x as i32 + long <= plate.width as i32
                        {
                            placed.push(Placement {
                                start,
                                end,
                                plate: p as u8,
                                turn,
                                y,
                                x,
                            })?;
                        }
                    }
                }
            }
        }
    }
    Ok(placed)
}

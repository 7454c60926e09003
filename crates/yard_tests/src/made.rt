//! The worked text, and the yard that it is.

use shape_exact::Point;
use std::test::Fail;
use yard_generator::{drawn_yard, generate};

/// The text of seed 1 and one block.
const FIRST: &str = "version = 1
days = 200
[[plate]]
name = \"P0\"
width = 60
height = 40
pitch = 2
closed = [5, 6, 12, 13, 19, 20, 26, 27, 33, 34, 40, 41, 47, 48, 54, 55, 61, 62, 68, 69, 75, 76, 82, 83, 89, 90, 96, 97, 103, 104, 110, 111, 117, 118, 124, 125, 131, 132, 138, 139, 145, 146, 152, 153, 159, 160, 166, 167, 173, 174, 180, 181, 187, 188, 194, 195]
[[plate]]
name = \"P1\"
width = 60
height = 40
pitch = 2
closed = [5, 6, 12, 13, 19, 20, 26, 27, 33, 34, 40, 41, 47, 48, 54, 55, 61, 62, 68, 69, 75, 76, 82, 83, 89, 90, 96, 97, 103, 104, 110, 111, 117, 118, 124, 125, 131, 132, 138, 139, 145, 146, 152, 153, 159, 160, 166, 167, 173, 174, 180, 181, 187, 188, 194, 195]
[[plate]]
name = \"P2\"
width = 60
height = 40
pitch = 2
closed = [5, 6, 12, 13, 19, 20, 26, 27, 33, 34, 40, 41, 47, 48, 54, 55, 61, 62, 68, 69, 75, 76, 82, 83, 89, 90, 96, 97, 103, 104, 110, 111, 117, 118, 124, 125, 131, 132, 138, 139, 145, 146, 152, 153, 159, 160, 166, 167, 173, 174, 180, 181, 187, 188, 194, 195]
[[block]]
name = \"B0\"
shape = [[0, 0], [10, 0], [10, 8], [8, 10], [0, 10]]
turns = [0, 1]
duration = 1
release = 11
due = 78
weight = 7
";

#[test]
fn seed_one_with_one_block(rt: HostRuntime) -> Result<(), Fail> {
    let text = generate(rt.alloc(), 1, 1)?;
    assert_eq!(rt; text.as_slice(), FIRST.as_bytes());
    Ok(())
}

/// The figures of the same text, as a yard.
#[test]
fn first_drawn_yard(rt: HostRuntime) -> Result<(), Fail> {
    let yard = drawn_yard(rt.alloc(), 1, 1)?;
    assert_eq!(rt; yard.days(), 200);
    assert_eq!(rt; yard.plates().len(), 3);
    assert_eq!(rt; yard.blocks().len(), 1);
    let block = &yard.blocks()[0];
    assert_eq!(rt; block.name.bytes(), b"B0".as_slice());
    let corners = [(0, 0), (10, 0), (10, 8), (8, 10), (0, 10)].map(|(x, y)| Point { x, y });
    assert_eq!(rt; block.shape.points(), corners.as_slice());
    assert_eq!(rt; block.turns, [true, true, false, false]);
    assert_eq!(rt; [block.duration, block.release, block.due], [1, 11, 78]);
    assert_eq!(rt; [block.weight, block.early], [7, 0]);
    Ok(())
}

/// The greatest seeds and numbers of blocks.
#[test]
fn largest_drawn_yards(rt: HostRuntime) -> Result<(), Fail> {
    for seed in [0, 1, 2_147_483_647] {
        let yard = drawn_yard(rt.alloc(), seed, 32)?;
        assert_eq!(rt; yard.blocks().len(), 32, "seed {seed}");
    }
    Ok(())
}

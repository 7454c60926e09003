//! Texts of yard files and what they are read as.

mod block_faults;
mod piece_faults;
mod refusals;
mod top_faults;
mod two_faults;

use std::alloc::{AllocError, Global};
use std::test::Fail;
use yard_file::read_yard;

const SQUARE: &str = "version = 1
days = 10
[[plate]]
name = \"P\"
width = 4
height = 3
[[block]]
name = \"A\"
shape = [[0,0],[2,0],[2,2],[0,2]]
duration = 2
due = 1
";

const HEAD: &str = "version=1\ndays=10";

const PLATE: &str = "{name='P',width=4,height=3}";

const BLOCK: &str = "{name='A',shape=[[0,0],[2,0],[2,2],[0,2]],duration=2,due=1}";

const UNIT: &str = "{name='A',shape=[[0,0],[1,0],[1,1],[0,1]],duration=1,due=1}";

const TOUCHING: &str = "version=2
days=10
fixed=[
    {plate='P',shape=[[0,0],[2,0],[2,2],[0,2]],x=0,y=0,from=0,to=1},
    {plate='P',shape=[[0,0],[2,0],[2,2],[0,2]],x=2,y=1,from=0,to=9},
    {plate='P',shape=[[0,0],[2,0],[2,2],[0,2]],x=0,y=0,from=2,to=2},
]";

#[test]
fn reads_the_yard(rt: HostRuntime) -> Result<(), Fail> {
    let yard = read_yard(rt.alloc(), SQUARE.as_bytes())?;
    assert_eq!(rt; yard.days(), 10);
    assert_eq!(rt; yard.plates().len(), 1);
    assert_eq!(rt; yard.blocks().len(), 1);
    for plate in yard.plates() {
        assert_eq!(rt; plate.name.bytes(), b"P".as_slice());
        assert_eq!(rt; (plate.width, plate.height, plate.pitch), (4, 3, 1));
        assert!(rt; plate.closed.days().is_empty());
    }
    for block in yard.blocks() {
        assert_eq!(rt; block.name.bytes(), b"A".as_slice());
        assert_eq!(rt; block.turns, [true, false, false, false]);
        assert_eq!(rt;
            (block.duration, block.release, block.due, block.weight),
            (2, 0, 1, 1)
        );
        for (point, (x, y)) in block
            .shape
            .points()
            .iter()
            .zip([(0, 0), (2, 0), (2, 2), (0, 2)])
        {
            assert_eq!(rt; (point.x, point.y), (x, y));
        }
    }
    Ok(())
}

/// The yard file with these top keys, plates and blocks.
fn text_of(alloc: Global, head: &str, plates: &str, blocks: &str) -> Result<String, AllocError> {
    format!(in alloc; "{head}\nplate=[{plates}]\nblock=[{blocks}]\n")
}

/// So many tables with names of their own and the same other keys.
fn tables(alloc: Global, count: u8, keys: &str) -> Result<String, AllocError> {
    let mut text = String::new(alloc);
    for i in 0..count {
        let table = format!(in alloc; "{{name='N{i}',{keys}}},")?;
        text.push_str(table.as_str())?;
    }
    Ok(text)
}

#[test]
fn takes_what_is_within_the_limits(rt: HostRuntime) -> Result<(), Fail> {
    for (head, plates, blocks) in [
        (HEAD, PLATE, BLOCK),
        (
            "days=400\nversion=1",
            "{name='P',width=400,height=400,pitch=100,closed=[399,0,7]}",
            BLOCK,
        ),
        (
            HEAD,
            "{name='P',width=1,height=1,closed=[]},{name='Q',width=1,height=1}",
            BLOCK,
        ),
        (
            HEAD,
            PLATE,
            "{name='A',shape=[[0,0],[0,2],[1,2],[2,2],[2,0]],duration=400,release=399,due=399,weight=0,turns=[3,0]}",
        ),
        ("version=2\ndays=10\nfixed=[]", PLATE, BLOCK),
        (TOUCHING, PLATE, BLOCK),
        (
            "version=3\ndays=10",
            PLATE,
            "{name='A',shape=[[0,0],[2,0],[0,2]],duration=2,due=1,early=1000},{name='B',shape=[[0,0],[2,0],[0,2]],duration=2,due=1,early=0}",
        ),
    ] {
        let text = text_of(rt.alloc(), head, plates, blocks)?;
        let read = read_yard(rt.alloc(), text.as_bytes());
        assert!(rt; read.is_ok(), "{text}");
    }
    Ok(())
}

#[test]
fn counts_plates_and_blocks(rt: HostRuntime) -> Result<(), Fail> {
    for (plates, blocks, taken) in [
        (8, 32, true),
        (9, 1, false),
        (1, 33, false),
        (0, 1, false),
        (1, 0, false),
    ] {
        let plates = tables(rt.alloc(), plates, "width=4,height=3")?;
        let blocks = tables(
            rt.alloc(),
            blocks,
            "shape=[[0,0],[2,0],[0,2]],duration=2,due=1",
        )?;
        let text = text_of(rt.alloc(), HEAD, plates.as_str(), blocks.as_str())?;
        let read = read_yard(rt.alloc(), text.as_bytes());
        assert_eq!(rt; read.is_ok(), taken, "{text}");
    }
    Ok(())
}

#[test]
fn says_the_refusal(rt: HostRuntime) -> Result<(), Fail> {
    let heavy = text_of(
        rt.alloc(),
        "version=1\ndays=256",
        "{name='P',width=64,height=65}",
        UNIT,
    )?;
    let long = vec![in rt.alloc(); b'='; 1_048_577]?;
    for (bytes, line) in [
        (long.as_slice(), "refused yard 1 TooLong\n"),
        (
            b"version = 1\ndays = ".as_slice(),
            "refused yard 2 NotToml\n",
        ),
        (b"version = 1 # \xff".as_slice(), "refused yard 2 NotToml\n"),
        (
            b"version = 9223372036854775808".as_slice(),
            "refused yard 2 NotToml\n",
        ),
        (b"".as_slice(), "refused yard 3 Missing top version\n"),
        (
            b"version = 1\ndays = 10\ncrane = 1\n".as_slice(),
            "refused yard 4 Unknown top crane\n",
        ),
        (
            b"version = 1\ndays = 10\n".as_slice(),
            "refused yard 8 NoPlate\n",
        ),
        (
            b"version = 1\ndays = 10\nplate = [{}]\n".as_slice(),
            "refused yard 10 NoBlock\n",
        ),
        (
            b"version = 1\ndays = 10\n[plate]\n".as_slice(),
            "refused yard 5 Kind top plate\n",
        ),
        (
            heavy.as_bytes(),
            "refused yard 17 TooManyPlacements 0 1064960\n",
        ),
    ] {
        let said = match read_yard(rt.alloc(), bytes) {
            Ok(_) => Vec::new(rt.alloc()),
            Err(fault) => fault.line(rt.alloc())?,
        };
        assert_eq!(rt; said.as_slice(), line.as_bytes());
    }
    Ok(())
}

#[test]
fn reads_a_turned_piece_and_an_early_cost(rt: HostRuntime) -> Result<(), Fail> {
    let text = text_of(
        rt.alloc(),
        "version=3
days=10
fixed=[{plate='Q',shape=[[0,0],[2,0],[0,1]],turn=1,x=3,y=1,from=4,to=9}]",
        "{name='P',width=4,height=3},{name='Q',width=4,height=3}",
        "{name='A',shape=[[0,0],[2,0],[0,2]],duration=2,due=1,early=7}",
    )?;
    let yard = read_yard(rt.alloc(), text.as_bytes())?;
    assert_eq!(rt; yard.fixed().len(), 1);
    for piece in yard.fixed() {
        assert_eq!(rt;
            (piece.plate, piece.x, piece.y, piece.from, piece.to),
            (1, 3, 1, 4, 9)
        );
        for (point, (x, y)) in piece.shape.points().iter().zip([(1, 0), (1, 2), (0, 0)]) {
            assert_eq!(rt; (point.x, point.y), (x, y));
        }
    }
    for block in yard.blocks() {
        assert_eq!(rt; (block.weight, block.early), (1, 7));
    }
    Ok(())
}

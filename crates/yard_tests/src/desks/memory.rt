//! The desk whose calls fail where they are listed, in pieces of four bytes.
use std::test::Fail;
use yard_io::{Desk, DeskCall, MemoryDesk, Trouble, read_file, say_all};

const FAILED: Trouble = Trouble::Failed;

#[test]
fn pieces_of_a_file(rt: HostRuntime) -> Result<(), Fail> {
    let mut desk = MemoryDesk::new(rt.alloc(), 4)?;
    desk.put("y", b"days = 10")?;
    let mut buf = [7u8; 6];
    for (at, first) in [(0, b'd'), (1, b'a'), (5, b'=')] {
        assert_eq!(rt; desk.read("y", at, &mut buf), Ok(4), "at {at}");
        assert_eq!(rt; buf[0], first, "at {at}");
    }
    for (at, answer) in [(6, Ok(3)), (8, Ok(1)), (9, Err(FAILED)), (20, Err(FAILED))] {
        assert_eq!(rt; desk.read("y", at, &mut buf), answer, "at {at}");
    }
    assert_eq!(rt; desk.read("y", 2, &mut [0u8; 2]), Ok(2));
    assert_eq!(rt; desk.read("z", 0, &mut buf), Err(FAILED));
    match read_file(rt.alloc(), &mut desk, "y") {
        Ok(bytes) => assert_eq!(rt; bytes.as_slice(), b"days = 10".as_slice()),
        Err(_) => assert!(rt; false, "the file is read"),
    }
    assert_eq!(rt; say_all(&mut desk, b"total 10\n"), Ok(()));
    assert_eq!(rt; desk.said(), b"total 10\n".as_slice());
    Ok(())
}

#[test]
fn a_listed_append_fails(rt: HostRuntime) -> Result<(), Fail> {
    let mut desk = MemoryDesk::new(rt.alloc(), 4)?;
    desk.fail(DeskCall::Append, 1)?;
    desk.fail(DeskCall::Fresh, 1)?;
    assert_eq!(rt; desk.fresh("l"), Ok(()));
    assert_eq!(rt; desk.append("l", b"log 1\nend\n"), Ok(4));
    assert_eq!(rt; desk.append("l", b"1\nend\n"), Err(FAILED));
    assert_eq!(rt; desk.file("l").unwrap_or(b"none"), b"log ".as_slice());
    assert_eq!(rt; desk.append("l", b"2\n"), Ok(2));
    assert_eq!(rt; desk.fresh("l"), Err(FAILED));
    assert_eq!(rt; desk.file("l").unwrap_or(b"none"), b"log 2\n".as_slice());
    assert_eq!(rt; desk.said().len(), 0);
    Ok(())
}

#[test]
fn a_listed_say_fails(rt: HostRuntime) -> Result<(), Fail> {
    let mut desk = MemoryDesk::new(rt.alloc(), 4)?;
    desk.fail(DeskCall::Say, 1)?;
    assert_eq!(rt; say_all(&mut desk, b"plan 1\n"), Err(FAILED));
    assert_eq!(rt; desk.said(), b"plan".as_slice());
    assert_eq!(rt; desk.say(b" 1\n"), Ok(3));
    assert_eq!(rt; desk.said(), b"plan 1\n".as_slice());
    Ok(())
}

/// Numbers go from 0, each kind has its own, and calls that fail have one too.
#[test]
fn calls_are_numbered_by_kind(rt: HostRuntime) -> Result<(), Fail> {
    let mut desk = MemoryDesk::new(rt.alloc(), 4)?;
    desk.put("y", b"days")?;
    for (call, nth) in [
        (DeskCall::Length, 0),
        (DeskCall::Length, 3),
        (DeskCall::Read, 1),
    ] {
        desk.fail(call, nth)?;
    }
    let lengths = [
        ("y", Err(FAILED)),
        ("y", Ok(4)),
        ("z", Err(FAILED)),
        ("y", Err(FAILED)),
        ("y", Ok(4)),
    ];
    for (name, answer) in lengths {
        assert_eq!(rt; desk.length(name), answer, "of {name}");
    }
    for answer in [Ok(4), Err(FAILED), Ok(4)] {
        assert_eq!(rt; desk.read("y", 0, &mut [0u8; 8]), answer);
    }
    assert!(rt; desk.file("z").is_none());
    Ok(())
}

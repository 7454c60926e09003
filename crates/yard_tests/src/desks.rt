//! The desks at work.
mod memory;

use std::fs;
use std::test::Fail;
use yard_io::{Desk, QuietDesk, RealDesk, Trouble, read_file, say_all};

#[test]
fn real_file(rt: HostRuntime) -> Result<(), Fail> {
    let name = "yard_io_real_file.tmp";
    let mut desk = RealDesk::new(&rt);
    assert_eq!(rt; desk.fresh(name), Ok(()));
    assert_eq!(rt; desk.append(name, b"version"), Ok(7));
    assert_eq!(rt; desk.append(name, b" = 1"), Ok(4));
    assert_eq!(rt; desk.length(name), Ok(11));
    match read_file(rt.alloc(), &mut desk, name) {
        Ok(bytes) => assert_eq!(rt; bytes.as_slice(), b"version = 1".as_slice()),
        Err(_) => assert!(rt; false),
    }
    let mut inside = [0u8; 3];
    assert_eq!(rt; desk.read(name, 8, &mut inside), Ok(3));
    assert_eq!(rt; inside.as_slice(), b"= 1".as_slice());
    assert_eq!(rt; desk.read(name, 11, &mut [0u8; 4]), Err(Trouble::Failed));
    assert_eq!(rt; desk.fresh(name), Ok(()));
    assert_eq!(rt; desk.length(name), Ok(0));
    assert!(rt; fs::remove_file(&rt, name).is_ok());
    assert_eq!(rt; desk.length(name), Err(Trouble::Failed));
    Ok(())
}

#[test]
fn quiet_pieces(rt: HostRuntime) -> Result<(), Fail> {
    let Ok(mut desk) = QuietDesk::new(rt.alloc(), 4) else {
        assert!(rt; false);
        return Ok(());
    };
    assert!(rt; desk.put("y", b"days = 10").is_ok());
    let mut buf = [7u8; 6];
    for (at, count, first) in [(0, 4, b'd'), (6, 3, b' '), (9, 6, 0), (20, 6, 0)] {
        assert_eq!(rt; desk.read("y", at, &mut buf), Ok(count), "at {at}");
        assert_eq!(rt; buf[0], first, "at {at}");
    }
    assert_eq!(rt; desk.append("y", b"0\nend"), Ok(4));
    let Some(bytes) = desk.file("y") else {
        assert!(rt; false);
        return Ok(());
    };
    assert_eq!(rt; bytes, b"days = 100\nen".as_slice());
    assert_eq!(rt; desk.fresh("y"), Ok(()));
    assert_eq!(rt; desk.length("y"), Ok(0));
    assert!(rt; desk.file("z").is_none());
    assert_eq!(rt; say_all(&mut desk, b"total 10\n"), Ok(()));
    assert_eq!(rt; desk.said(), b"total 10\n".as_slice());
    Ok(())
}

//! Logs whose texts are written by hand.
ghost use Rattle.std.specs.Prelude.{◌≡◌, IfOk, length};
ghost use Rattle.refutation_log.specs.Logs.{CiteEarlier};
ghost use Rattle.refutation_log.specs.Spelling.{HaveText};

use plan_rule::{Literal, PlanBox};
use refutation_log::{Capsule, Cites, Log, LogFault, Record, read_log, write_log};
use shape_exact::NoMemory;
use std::alloc::Global;
use std::test::Fail;

const FIVE: &[u8] =
    b"log 1\nbranch 1 0 18 0:0 -\nbranch 1 0 18 0:1 -\nbranch 1 0 18 0:2 -\nbranch 1 0 18 0:3 -\nbranch 0 0 18 - 0,1,2,3\nend\n";

#[test]
fn a_text_with_one_fault_names_it(rt: HostRuntime) {
    let cases: [(&[u8], LogFault); 12] = [
        (b"", LogFault::Head),
        (b"log 1", LogFault::Head),
        (b"log 2\nend\n", LogFault::Head),
        (b"log 1\n", LogFault::NoEnd),
        (b"log 1\nend", LogFault::NoEnd),
        (b"log 1\nend\n\n", LogFault::Rest),
        (b"log 1\nbranch 00 0 18 - -\nend\n", LogFault::Line(2)),
        (b"log 1\nfit 0:1,0:2\nend\n", LogFault::Line(2)),
        (b"log 1\nfit -\nbranch 0 18 0 - -\nend\n", LogFault::Line(3)),
        (b"log 1\nenergy 2 1 -\nend\n", LogFault::Line(2)),
        (b"log 1\nfit 0:5..6\nend\n", LogFault::Line(2)),
        (b"log 1\nfit -\n\nend\n", LogFault::Line(3)),
    ];
    for (text, fault) in cases {
        match read_log(rt.alloc(), text) {
            Ok(_) => assert!(rt; false, "a text with a fault was read"),
            Err(found) => assert_eq!(rt; found, fault),
        }
    }
}

#[test]
fn every_part_of_a_text_lacks_its_head_or_its_end(rt: HostRuntime) {
    for length in 0..FIVE.len() {
        let fault = if length < 6 {
            LogFault::Head
        } else {
            LogFault::NoEnd
        };
        match read_log(rt.alloc(), &FIVE[..length]) {
            Ok(_) => assert!(rt; false, "a part was read"),
            Err(found) => assert_eq!(rt; found, fault, "at {length}"),
        }
    }
}

/// A fit of the side `0:3`, and a branch that cites it.
fn fit_and_branch(alloc: Global) -> Result<Log, NoMemory>
    ensures text { IfOk result (λ log. HaveText log) }
    ensures cites { IfOk result (λ log. CiteEarlier log) }
    ensures count { IfOk result (λ log. length log ≡ 2) }
{
    let mut log = Log::new(alloc);
    log.push(Record::Fit {
        side: PlanBox::new(alloc, &[Literal::exact(0, 3)])?,
    })?;
    log.push(Record::Branch {
        block: 0,
        lo: 3,
        hi: 4,
        side: PlanBox::new(alloc, &[])?,
        cites: Cites::new(alloc, &[0])?,
    })?;
    Ok(log)
}

#[test]
fn a_log_is_read_appended_and_written(rt: HostRuntime) -> Result<(), Fail> {
    let mut log = read_log(rt.alloc(), FIVE)?;
    assert_eq!(rt; log.records().len(), 5);
    assert_eq!(rt; write_log(rt.alloc(), &log)?.as_slice(), FIVE);
    let other = fit_and_branch(rt.alloc())?;
    assert_eq!(rt;
        write_log(rt.alloc(), &other)?.as_slice(),
        b"log 1\nfit 0:3\nbranch 0 3 4 - 0\nend\n".as_slice()
    );
    assert_eq!(rt; log.append(rt.alloc(), &other)?, 5);
    assert_eq!(rt; log.records().len(), 7);
    match &log.records()[6] {
        Record::Branch { cites, .. } => assert_eq!(rt; cites.list(), [5].as_slice()),
        _ => assert!(rt; false, "the branch came last"),
    }
    match Capsule::new(9, other) {
        Ok(capsule) => {
            assert_eq!(rt; capsule.bar(), 9);
            assert_eq!(rt; capsule.log().records().len(), 2);
        }
        Err(_) => assert!(rt; false, "a small log is refused"),
    }
    Ok(())
}

#[test]
fn a_log_of_no_record_is_handed_back_and_a_fault_has_a_line(rt: HostRuntime) -> Result<(), Fail> {
    match Capsule::new(7, Log::new(rt.alloc())) {
        Ok(_) => assert!(rt; false, "a capsule of no record"),
        Err(empty) => assert_eq!(rt; empty.records().len(), 0),
    }
    assert_eq!(rt;
        LogFault::Line(3).line(rt.alloc())?.as_slice(),
        b"refused log 2 Line 3\n".as_slice()
    );
    Ok(())
}

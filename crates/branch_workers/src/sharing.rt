//! What a worker shares of its refutations, and takes from others.
ghost use Rattle.std.specs.Prelude.{◌≡◌, ◌<◌, ◌≤◌, ℕ, Some, length, Contains, IfOk, OnOk};
ghost use Rattle.incumbent_word.specs.Sharing.{IsShareable};
ghost use Rattle.plan_rule.specs.Reports.{IsBar};
ghost use Rattle.plan_rule.specs.Yards.{choices};
ghost use Rattle.refutation_log.specs.Logs.{CiteEarlier};
ghost use Rattle.refutation_log.specs.Steps.{result_of};
ghost use Rattle.nogood_store.specs.Hits.{last_tag};
ghost use Rattle.branch_workers.specs.Stock.{IsImported, IsLastKept, IsNamed, IsPostable, IsStorable, IsStocked};
ghost use Rattle.branch_workers.specs.Work.{IsGrownLog};

use branch_core::records_are_proper;
use branch_kernel::{Shown, choices_are_known, copy, keep_box, node_part};
use code_table::Codes;
use incumbent_word::{Board, Fetched, Posted, Seat};
use log_parts::derivation;
use nogood_store::Nogoods;
use plan_rule::{Literal, PlanBox, keys_are_small};
use refutation_log::{Capsule, Log, Record};
use shape_exact::NoMemory;
use std::alloc::Global;

/// Whether the capsule of a post is in its slot.
fn is_in_slot(posted: Posted) -> bool {
    match posted {
        Posted::Busy(_) => false,
        Posted::Done | Posted::Replaced(_) => true,
    }
}

/// Posts the record of the box that was stored last, with every record that it rests on, where more boxes are stored than
/// before the search; answers whether the capsule is in the slot. The bar is what the search saw last. A capsule that cannot
/// be made is passed over.
pub(crate) fn post_last(
    alloc: Global,
    codes: &Codes,
    board: &Board,
    slot: u8,
    before: u32,
    seen: u64,
    seat: &mut Seat,
    store: &Nogoods,
    log: &Log,
) -> bool
    requires slot { slot < 16 }
    requires board { (seat.old.place ≡ board.now) × (board.now.yard ≡ codes.now) }
    requires earlier { CiteEarlier log.now }
    requires seen { Contains seat.old.seen seen }
    requires postable { before < length store.now.nogoods → (tag : ℕ) → last_tag store.now.nogoods ≡ Some tag
        → IsPostable (choices codes.now) seen log.now tag }
    ensures place { seat.new.place ≡ seat.old.place }
    ensures seen { seat.new.seen ≡ seat.old.seen }
{
    if store.len() <= before {
        return false;
    }
    let Some(tag) = store.last() else {
        return false;
    };
    let Ok(found) = derivation(alloc, log, tag, seen) else {
        return false;
    };
    let Some(capsule) = found else {
        return false;
    };
    let posted = board.post(seat, slot, capsule);
    is_in_slot(posted)
}

/// The box that a record refutes.
fn box_of(alloc: Global, codes: &Codes, entry: &Record) -> Result<PlanBox, NoMemory>
    requires { IsNamed (choices codes.now) entry.now }
    ensures { IfOk result (λ part. part ≡ result_of (choices codes.now) entry.now) }
{
    match entry {
        Record::Branch {
            block,
            lo,
            hi,
            side,
            ..
        } => node_part(
            alloc,
            codes,
            side,
            Literal {
                block: *block,
                lo: *lo,
                hi: *hi,
            },
        ),
        Record::Fit { side } => copy(alloc, side),
        Record::Energy { side, .. } => copy(alloc, side),
    }
}

/// Stores the box of the log's last record. A refused growth is passed over.
fn store_last(alloc: Global, codes: &Codes, store: &mut Nogoods, log: &Log)
    requires { IsStorable (choices codes.now) log.now }
    ensures prefix { store.new.prefix ≡ store.old.prefix }
    ensures kept { IsLastKept (choices codes.now) log.now store.old.nogoods store.new.nogoods }
{
    let records = log.records();
    let number = records.len() - 1;
    let Ok(part) = box_of(alloc, codes, &records[number]) else {
        return;
    };
    keep_box(
        store,
        part,
        Shown {
            number: number as u64,
            tie: false,
        },
    );
}

/// Appends the records of a capsule whose bar is at least the best key as it was seen, and stores the last one's box.
fn import(
    alloc: Global,
    codes: &Codes,
    capsule: &Capsule,
    store: &mut Nogoods,
    log: &mut Log,
) -> Result<(), NoMemory>
    requires shareable { IsShareable codes.now capsule.now }
    requires seen { (n : ℕ) × IsBar (choices codes.now) n × (n ≤ capsule.now.bar) }
    ensures { OnOk result (IsImported (choices codes.now) log.old log.new store.old store.new capsule.now) }
{
    let _bar = capsule.bar();
    choices_are_known(codes);
    let first = log.append(alloc, capsule.log())?;
    records_are_proper(codes, log, first as usize);
    store_last(alloc, codes, store, log);
    Ok(())
}

/// Takes the capsule out of a slot, and imports it where its bar is at least the best key as it is then seen.
pub(crate) fn take_in(
    alloc: Global,
    codes: &Codes,
    board: &Board,
    slot: u8,
    seat: &mut Seat,
    store: &mut Nogoods,
    log: &mut Log,
) -> Result<(), NoMemory>
    requires slot { slot < 16 }
    requires board { (seat.old.place ≡ board.now) × (board.now.yard ≡ codes.now) }
    requires stocked { IsStocked (choices codes.now) log.old store.old seat.old.seen }
    ensures place { seat.new.place ≡ seat.old.place }
    ensures grown { OnOk result (IsGrownLog (choices codes.now) log.old log.new seat.old.seen seat.new.seen) }
    ensures stocked { OnOk result (IsStocked (choices codes.now) log.new store.new seat.new.seen) }
{
    keys_are_small(codes);
    let Fetched::Got(capsule) = board.fetch(seat, slot) else {
        return Ok(());
    };
    let bar = capsule.bar();
    if board.see(seat) > bar {
        return Ok(());
    }
    import(alloc, codes, &capsule, store, log)
}

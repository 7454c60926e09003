//! What a window of days holds, and what a side puts into it.
ghost use Rattle.std.specs.Prelude.{◌≡◌, ℕ, ◌<◌, ◌^◌, ◌↔◌, IsTrue, length, slice_get};
ghost use Rattle.plan_rule.specs.Choices.{IsCode, blocks};
ghost use Rattle.plan_rule.specs.Boxes.{IsBox};
ghost use Rattle.plan_rule.specs.Bounds.{presses, demand, used};
ghost use Rattle.shape_exact.specs.Yards.{IsPiece};
ghost use Rattle.plan_rule.specs.Yards.{choices, stood_by};
ghost use Rattle.log_checker.specs.Windows.{HasRoom, plate_room, used_by, work_in};

use crate::block::block_at;
use code_table::Codes;
use plan_rule::{PlanBox, block_count};
use shape_exact::Fixed;

/// The days from `from` to `to`, both included.
#[derive(Clone, Copy, PartialEq, Eq, Debug)]
pub(crate) struct Window {
    pub from: u16,
    pub to: u16,
}

/// The cells of a plate, once for each open day in the window.
fn plate_room(codes: &Codes, window: Window, plate: u8) -> u64
    requires { plate < length codes.now.plates }
    ensures value { result ≡ plate_room codes.now window.from window.to plate }
    ensures few { result < 2 ^ 48 }
{
    let days = codes.calendar(plate).open_between(window.from, window.to);
    let plate = &codes.yard().plates()[plate as usize];
    u64::from(days) * (u64::from(plate.height) * u64::from(plate.width))
}

/// The cells of all plates, once for each open day in the window.
fn capacity(codes: &Codes, window: Window) -> u64
    ensures value { result ≡ (choices codes.now).capacity window.from window.to }
    ensures few { result < 2 ^ 56 }
{
    let mut sum = 0;
    for plate in 0..codes.yard().plates().len() as u8 {
        sum += plate_room(codes, window, plate);
    }
    sum
}

/// The cells of a block at a code, once for each open day that it spans in the window.
fn taken(codes: &Codes, window: Window, block: u8, code: u32) -> u64
    requires { IsCode (choices codes.now) block code }
    ensures value { result ≡ (choices codes.now).taken window.from window.to block code }
    ensures few { result < 2 ^ 48 }
{
    let place = codes.place(block, code);
    let first = window.from.max(place.start);
    let last = window.to.min(place.end);
    let days = codes.calendar(place.plate).open_between(first, last);
    u64::from(days) * u64::from(codes.cells(block))
}

/// What the code takes in the window to which the side fixes the block, if it does.
fn used_by(codes: &Codes, side: &PlanBox, window: Window, block: u8) -> u64
    requires side { IsBox (choices codes.now) side.now }
    requires block { block < blocks (choices codes.now) }
    ensures value { result ≡ used_by (choices codes.now) side.now window.from window.to block }
    ensures few { result < 2 ^ 48 }
{
    match side.exact_code(block) {
        Some(code) => taken(codes, window, block, code),
        None => 0,
    }
}

/// What a piece takes in the window: its cells, once for each open day of its plate on which it stands there.
fn stood_by(codes: &Codes, window: Window, piece: &Fixed) -> u64
    requires { IsPiece codes.now.days codes.now.plates piece.now }
    ensures value { result ≡ stood_by codes.now window.from window.to piece.now }
    ensures few { result < 2 ^ 48 }
{
    let first = window.from.max(piece.from);
    let last = window.to.min(piece.to);
    let days = codes.calendar(piece.plate).open_between(first, last);
    u64::from(days) * u64::from(piece.shape.cells())
}

/// What the pieces take in the window.
fn standing(codes: &Codes, window: Window) -> u64
    ensures value { result ≡ (choices codes.now).standing window.from window.to }
    ensures few { result < 2 ^ 55 }
{
    let mut sum = 0;
    for piece in codes.yard().fixed() {
        sum += stood_by(codes, window, piece);
    }
    sum
}

/// What the pieces and the exact codes take in the window.
fn used(codes: &Codes, side: &PlanBox, window: Window) -> u64
    requires { IsBox (choices codes.now) side.now }
    ensures value { result ≡ used (choices codes.now) side.now window.from window.to }
    ensures few { result < 2 ^ 57 }
{
    let mut sum = standing(codes, window);
    for block in 0..block_count(codes) {
        sum += used_by(codes, side, window, block);
    }
    sum
}

/// Whether the side does not fix the block, which is released in the window or later and due in it or earlier.
pub(crate) fn presses(codes: &Codes, side: &PlanBox, window: Window, block: u8) -> bool
    requires { block < blocks (choices codes.now) }
    ensures { result ≡ presses (choices codes.now) side.now window.from window.to block }
{
    if side.exact_code(block).is_some() {
        return false;
    }
    let data = block_at(codes, block);
    window.from <= data.release && data.due <= window.to
}

/// The cells of the block, once for each day of its duration, where it presses.
fn work_in(codes: &Codes, side: &PlanBox, window: Window, block: u8) -> u64
    requires { block < blocks (choices codes.now) }
    ensures value { result ≡ work_in (choices codes.now) side.now window.from window.to block }
    ensures few { result < 2 ^ 48 }
{
    if !presses(codes, side, window, block) {
        return 0;
    }
    let data = block_at(codes, block);
    u64::from(data.duration) * u64::from(codes.cells(block))
}

/// The work of the blocks that press.
fn demand(codes: &Codes, side: &PlanBox, window: Window) -> u64
    ensures value { result ≡ demand (choices codes.now) side.now window.from window.to }
    ensures few { result < 2 ^ 56 }
{
    let mut sum = 0;
    for block in 0..block_count(codes) {
        sum += work_in(codes, side, window, block);
    }
    sum
}

/// Whether the window has room for the work of the blocks that press, beside what the exact codes take.
pub(crate) fn has_room(codes: &Codes, side: &PlanBox, window: Window) -> bool
    requires { IsBox (choices codes.now) side.now }
    ensures { IsTrue result ↔ HasRoom (choices codes.now) side.now window.from window.to }
{
    demand(codes, side, window) + used(codes, side, window) <= capacity(codes, window)
}

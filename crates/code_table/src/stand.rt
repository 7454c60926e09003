//! Stands: a start, a plate and a turn, all of a placement but its position. They are numbered by start, then plate,
//! then turn.
ghost use Rattle.std.specs.Prelude.{◌≡◌, ℕ, ◌+◌, ◌*◌, ◌/◌, ◌%◌, ◌≤◌, ◌<◌, List, Some, length, map, slice_get};
ghost use Rattle.shape_exact.specs.Shapes.{turned};
ghost use Rattle.shape_exact.specs.Yards.{IsYard};
ghost use Rattle.plate_calendar.specs.Calendars.{open_days};
ghost use Rattle.code_table.specs.Stands.{stands, stand_start, stand_plate, stand_turn};

use arrayvec::ArrayVec;
use plate_calendar::Calendar;
use shape_exact::{Shape, Yard};

/// A start, a plate and a turn.
#[derive(Clone, Copy)]
pub(crate) struct Stand {
    pub(crate) start: u16,
    pub(crate) plate: u8,
    pub(crate) turn: u8,
}

/// The calendars of the plates.
pub(crate) fn calendars_of(yard: &Yard) -> ArrayVec<Calendar, 8>
    ensures value { result.items ≡ map (λ p. open_days yard.now.days p.closed) yard.now.plates }
    ensures limits { IsYard yard.now }
{
    let mut calendars = ArrayVec::new();
    let plates = yard.plates();
    for plate in plates {
        calendars.push(Calendar::of_list(yard.days(), &plate.closed));
    }
    calendars
}

/// The shape in each of its four turns.
pub(crate) fn turns_of(shape: &Shape) -> ArrayVec<Shape, 4>
    ensures len { length result.items ≡ 4 }
    ensures value { (q : ℕ) → q < 4 → slice_get result.items q ≡ Some (turned q shape.now) }
{
    let mut shapes = ArrayVec::new();
    for turn in 0..4u8 {
        shapes.push(shape.turned(turn));
    }
    shapes
}

/// The number of stands.
pub(crate) fn stands(yard: &Yard) -> u32
    ensures value { result ≡ stands yard.now }
    ensures few { result ≤ 12800 }
{
    yard.days() as u32 * (yard.plates().len() as u32 * 4)
}

/// The k-th stand.
pub(crate) fn nth_stand(yard: &Yard, k: u32) -> Stand
    requires { k < stands yard.now }
    ensures start { result.start ≡ stand_start yard.now k }
    ensures plate { result.plate ≡ stand_plate yard.now k }
    ensures turn { result.turn ≡ stand_turn yard.now k }
    ensures start_within { result.start < yard.now.days }
    ensures plate_within { result.plate < length yard.now.plates }
    ensures turn_within { result.turn < 4 }
{
    let per_day = yard.plates().len() as u32 * 4;
    let within = k % per_day;
    Stand {
        start: (k / per_day) as u16,
        plate: (within / 4) as u8,
        turn: (within % 4) as u8,
    }
}

/// The number of a stand.
pub(crate) fn number_of(yard: &Yard, at: Stand) -> u32
    requires start { at.start < yard.now.days }
    requires plate { at.plate < length yard.now.plates }
    requires turn { at.turn < 4 }
    ensures value { result ≡ at.start * (length yard.now.plates * 4) + (at.plate * 4 + at.turn) }
    ensures within { result < stands yard.now }
{
    let per_day = yard.plates().len() as u32 * 4;
    at.start as u32 * per_day + (at.plate as u32 * 4 + at.turn as u32)
}

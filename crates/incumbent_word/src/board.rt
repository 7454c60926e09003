//! Boards and seats.
ghost use Rattle.std.specs.Prelude.{◌≡◌, ◌≤◌, All, IfOk};
ghost use Rattle.plan_rule.specs.Paths.{key};
ghost use Rattle.plan_rule.specs.Reports.{IsBar};
ghost use Rattle.plan_rule.specs.Yards.{choices};
ghost use Rattle.incumbent_word.specs.Sittings.{fresh_sitting, joined, parted};

use crate::plays::{Apart, Both};
use crate::rule::{Shared, View};
use atomic_table::Table;
use code_table::Codes;
use refutation_log::Capsule;
use shape_exact::NoMemory;
use std::alloc::Global;
use std::marker::Model;

/// The shared words and slots. Contracts see which board it is, and its yard.
#[derive(Drop)]
pub struct Board {
    pub(crate) table: Table<Option<Capsule>, View, Codes, Shared, Global>,
}

impl Model for Board {
    ghost use Rattle.std.specs.Prelude.{◌≡◌};
    ghost use Rattle.incumbent_word.specs.Sittings.{Place, place};

    ghost Value = { Place };

    ghost view = { λ b. place b.table.shared.table_id b.table.shared.key };

    ghost invariant = { λ b. (b.table.shared.table_id.words ≡ 17) × (b.table.shared.table_id.slots ≡ 16) };
}

/// What a worker steps with. Contracts see its board, what it has seen and offered, and for each slot how often it has
/// found the turn taken and the slot empty. It holds no turn.
#[derive(Drop)]
pub struct Seat {
    pub(crate) seat: atomic_table::Seat<Option<Capsule>, View>,
}

impl Model for Seat {
    ghost use Rattle.std.specs.Prelude.{◌≡◌, [], true, None};
    ghost use Rattle.incumbent_word.specs.Sittings.{Sitting, sitting_of};

    ghost Value = { Sitting };

    ghost view = { λ s. sitting_of s.seat.table_id s.seat.me.0 };

    ghost invariant = { λ s. (s.seat.me.1 ≡ []) × (s.seat.me.0.live ≡ true) × (s.seat.me.0.turn ≡ None) };
}

/// What a board ends with.
#[derive(Clone, Copy, Debug, PartialEq, Eq)]
pub struct Closed {
    pub word: u64,
}

impl Board {
    /// A board on which nothing was offered, all turns free and all slots empty, and its first seat.
    pub fn new(alloc: Global, codes: &Codes) -> Result<(Board, Seat), NoMemory>
        ensures yard { IfOk result (λ r. r.0.yard ≡ codes.now) }
        ensures seat { IfOk result (λ r. r.1 ≡ fresh_sitting r.0) }
    {
        let words = [u64::MAX, 0, 0, 0, 0, 0, 0, 0, 0, 0, 0, 0, 0, 0, 0, 0, 0];
        let (table, seat) = Table::vacant(alloc, &words, 16, codes)?;
        Ok((Board { table }, Seat { seat }))
    }

    /// A new seat that has seen as much, and has offered and found nothing.
    pub fn split(&self, seat: &mut Seat) -> Seat
        requires { seat.old.place ≡ self.now }
        ensures kept { seat.new ≡ seat.old }
        ensures new { result ≡ parted seat.old }
    {
        let seat = self.table.shared.split_seat::<Apart>(&mut seat.seat);
        Seat { seat }
    }

    /// The first seat has then seen, offered and found what both had.
    pub fn join(&self, seat: &mut Seat, other: Seat)
        requires { (seat.old.place ≡ self.now) × (other.place ≡ self.now) }
        ensures { seat.new ≡ joined seat.old other }
    {
        let Seat { seat: other } = other;
        self.table.shared.join_seat::<Both>(&mut seat.seat, other);
    }

    /// Ends the board. The word is at most each key that the seat has seen or offered.
    pub fn close(self, seat: Seat) -> Closed
        requires { seat.place ≡ self }
        ensures key { IsBar (choices self.yard) result.word }
        ensures seen { All (λ n. result.word ≤ n) seat.seen }
        ensures offered { All (λ plan. result.word ≤ key (choices self.yard) plan) seat.offered }
    {
        let Board { table } = self;
        let Seat { seat } = seat;
        let mut closed = table.close_with(seat);
        let word = closed.word(0);
        for slot in 0..16 {
            drop(closed.take(slot));
        }
        closed.free();
        Closed { word }
    }
}

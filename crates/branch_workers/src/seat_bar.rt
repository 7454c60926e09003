//! The bar of a board as a seat sees it.
ghost use Rattle.std.specs.Prelude.{◌≡◌, ◌<◌, ◌≤◌, All, length};
ghost use Rattle.plan_rule.specs.Reports.{IsBar};
ghost use Rattle.plan_rule.specs.Yards.{choices};
ghost use Rattle.branch_workers.specs.Bars.{last_seen};

use branch_kernel::Bars;
use code_table::Codes;
use incumbent_word::{Board, Seat};
use plan_rule::Plan;

/// The bar of a board, as a seat has last seen it. Its home is the seat's place.
#[derive(Drop)]
pub(crate) struct SeatBar<'a> {
    pub(crate) board: &'a Board,
    pub(crate) seat: Seat,
    pub ghost here: { board.now ≡ seat.place },
    pub ghost some: { 0 < length seat.seen },
}

impl<'a> SeatBar<'a> {
    /// The bar as a seat sees it that is split from this one.
    pub(crate) fn beside(board: &'a Board, seat: &mut Seat) -> SeatBar<'a>
        requires { seat.old.place ≡ board.now }
        ensures seat { seat.new ≡ seat.old }
        ensures home { result.seat.place ≡ seat.old.place }
        ensures least { All (λ n. last_seen result.seat.seen ≤ n) seat.old.seen }
        ensures bar { IsBar (choices seat.old.place.yard) (last_seen result.seat.seen) }
    {
        let mut own = board.split(seat);
        board.see(&mut own);
        SeatBar { board, seat: own }
    }
}

impl<'a> Bars for SeatBar<'a> {
    ghost use Rattle.branch_workers.specs.Bars.{last_seen};
    ghost use Rattle.incumbent_word.specs.Sittings.{Place};

    ghost Home = { Place };

    ghost yard = { λ s. s.seat.place.yard };

    ghost bar = { λ s. last_seen s.seat.seen };

    ghost home = { λ s. s.seat.place };

    fn see(&mut self) -> u64 {
        self.board.see(&mut self.seat)
    }

    fn offer(&mut self, codes: &Codes, plan: &Plan) -> u64 {
        self.board.offer(&mut self.seat, codes, plan)
    }
}

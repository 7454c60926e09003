//! The best key: what was offered, and no more.
ghost use Rattle.std.specs.Prelude.{◌≡◌, ◌≤◌, All};
ghost use Rattle.plan_rule.specs.Paths.{key};
ghost use Rattle.plan_rule.specs.Plans.{IsFeasible};
ghost use Rattle.plan_rule.specs.Reports.{IsBar};
ghost use Rattle.plan_rule.specs.Yards.{choices};
ghost use Rattle.incumbent_word.specs.Keys.{IsFeasibleKey};
ghost use Rattle.incumbent_word.specs.Sittings.{with_seen, with_offer};

use crate::plays::{Offering, Offers, Sees};
use crate::{Board, Seat};
use code_table::Codes;
use plan_rule::{Plan, key};
use std::marker::Brand;

impl Board {
    /// The best key, by one load: the greatest u64, or the key of a feasible plan that was offered. The seat has then seen
    /// it. It is at most each key that the seat saw before, its own offers among them.
    pub fn see(&self, seat: &mut Seat) -> u64
        requires { seat.old.place ≡ self.now }
        ensures seen { seat.new ≡ with_seen seat.old result }
        ensures least { All (λ n. result ≤ n) seat.old.seen }
        ensures key { IsBar (choices self.now.yard) result }
    {
        self.table.shared.load::<Sees>(&mut seat.seat, 0)
    }

    /// Offers a feasible plan, by one step that takes the lesser of the best key and the plan's, and answers the lesser.
    /// The seat has then offered the plan and seen the answer, which is the key of a feasible plan.
    pub fn offer(&self, seat: &mut Seat, codes: &Codes, plan: &Plan) -> u64
        requires board { seat.old.place ≡ self.now }
        requires yard { codes.now ≡ self.now.yard }
        requires feasible { IsFeasible (choices codes.now) plan.now }
        ensures seen { seat.new ≡ with_offer seat.old plan.now result }
        ensures least { All (λ n. result ≤ n) seat.old.seen }
        ensures low { result ≤ key (choices codes.now) plan.now }
        ensures key { IsFeasibleKey (choices codes.now) result }
    {
        self.offer_of::<Brand>(seat, codes, plan)
    }

    /// The same, of the plan that `J` names.
    fn offer_of<J: Offering>(&self, seat: &mut Seat, codes: &Codes, plan: &Plan) -> u64
        requires board { seat.old.place ≡ self.now }
        requires yard { codes.now ≡ self.now.yard }
        requires feasible { IsFeasible (choices codes.now) plan.now }
        requires plan { plan.now ≡ J.plan }
        ensures seen { seat.new ≡ with_offer seat.old J.plan result }
        ensures least { All (λ n. result ≤ n) seat.old.seen }
        ensures low { result ≤ key (choices codes.now) plan.now }
        ensures key { IsFeasibleKey (choices codes.now) result }
    {
        let own = key(codes, plan);
        let found = self
            .table
            .shared
            .fetch_min::<Offers<J>>(&mut seat.seat, 0, own);
        found.min(own)
    }
}

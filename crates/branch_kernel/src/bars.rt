//! The bar: the least key of a plan that anyone has found.
ghost use Rattle.std.specs.Prelude.{◌≡◌, ◌≤◌, ◌-◌, ◌^◌, ℕ};
ghost use Rattle.shape_exact.specs.Yards.{PlainYard};
ghost use Rattle.plan_rule.specs.Plans.{IsFeasible};
ghost use Rattle.plan_rule.specs.Paths.{key};
ghost use Rattle.plan_rule.specs.Reports.{IsBar};
ghost use Rattle.plan_rule.specs.Yards.{choices};

use code_table::Codes;
use plan_rule::{Plan, key};
use std::marker::Model;

/// The bar of one worker or of many: the greatest u64, or the key of a plan that is feasible in the yard that it serves.
///
/// `home` is whatever else an implementation keeps through each call, as the place of a shared bar.
pub trait Bars {
    ghost Home: { Type 0 };

    ghost yard: { Self → PlainYard };

    ghost bar: { Self → ℕ };

    ghost home: { Self → Home };

    /// The bar as it stands.
    fn see(&mut self) -> u64
        ensures served { yard self.new ≡ yard self.old }
        ensures home { home self.new ≡ home self.old }
        ensures seen { result ≡ bar self.new }
        ensures falls { bar self.new ≤ bar self.old }
        ensures is_bar { IsBar (choices (yard self.old)) result };

    /// Lowers the bar to the plan's key, where it is above; answers the bar as it then stands.
    fn offer(&mut self, codes: &Codes, plan: &Plan) -> u64
        requires served { yard self.old ≡ codes.now }
        requires feasible { IsFeasible (choices codes.now) plan.now }
        ensures served { yard self.new ≡ yard self.old }
        ensures home { home self.new ≡ home self.old }
        ensures seen { result ≡ bar self.new }
        ensures falls { bar self.new ≤ bar self.old }
        ensures at_most { result ≤ key (choices codes.now) plan.now }
        ensures is_bar { IsBar (choices (yard self.old)) result };
}

/// The bar of one worker: it serves the yard of the codes that it is lent, and begins with the greatest u64.
#[derive(Drop)]
pub struct OneBar<'a> {
    codes: &'a Codes,
    bar: u64,
}

impl<'a> Model for OneBar<'a> {
    ghost use Rattle.plan_rule.specs.Reports.{IsBar};
    ghost use Rattle.plan_rule.specs.Yards.{choices};
    ghost use Rattle.branch_kernel.specs.Bars.{PlainBar};

    ghost Value = { PlainBar };

    ghost view = { λ s. record { yard = s.codes.now; bar = s.bar } };

    ghost invariant = { λ s. IsBar (choices s.codes.now) s.bar };
}

impl<'a> OneBar<'a> {
    /// The bar of the yard of these codes, with no plan yet.
    pub fn new(codes: &'a Codes) -> OneBar<'a>
        ensures yard { result.yard ≡ codes.now }
        ensures bar { result.bar ≡ 2 ^ 64 - 1 }
    {
        OneBar {
            codes,
            bar: u64::MAX,
        }
    }
}

impl<'a> Bars for OneBar<'a> {
    ghost Home = { Unit {0} };

    ghost yard = { λ b. b.yard };

    ghost bar = { λ b. b.bar };

    ghost home = { λ _. tt };

    fn see(&mut self) -> u64 {
        self.bar
    }

    fn offer(&mut self, codes: &Codes, plan: &Plan) -> u64 {
        self.bar = self.bar.min(key(codes, plan));
        self.bar
    }
}

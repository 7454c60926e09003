//! The look for a job, cell by cell, which a pop and a steal are.
ghost use Rattle.std.specs.Prelude.{◌≡◌, ◌<◌, ◌≤◌, ℕ, true, length, IfSome, MatchOption};
ghost use Rattle.plan_rule.specs.Jobs.{IsJob};
ghost use Rattle.steal_rule.specs.Views.{swept, took};

use crate::rule::{Cells, Place, Swaps};
use plan_rule::Job;

/// Swaps the cells with 0, from cell 0 up, until one held a job.
pub(crate) fn sweep(cells: &Cells, place: &mut Place) -> Option<Job>
    requires size { cells.now.shared.table_id.words ≡ 64 }
    requires table { place.old.table_id ≡ cells.now.shared.table_id }
    requires live { place.old.me.0.live ≡ true }
    ensures place { (place.new.table_id ≡ place.old.table_id) × (place.new.me.1 ≡ place.old.me.1) }
    ensures view { MatchOption result (place.new.me.0 ≡ swept 64 place.old.me.0)
        (λ job. (k : ℕ) × (k < 64) × (place.new.me.0 ≡ took k job (swept k place.old.me.0))) }
    ensures job { IfSome result IsJob }
    ensures few { IfSome result (λ _. length place.new.me.0.emptied ≤ 64) }
{
    for cell in 0..64 {
        let found = cells.shared.swap::<Swaps>(place, cell, 0);
        if found > 0 {
            return Job::of_word(found - 1);
        }
    }
    None
}

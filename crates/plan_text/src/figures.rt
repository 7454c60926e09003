//! Figures beside what they are.
ghost use Rattle.std.specs.Prelude.{◌≡◌};
ghost use Rattle.plan_text.specs.Rows.{entry};
ghost use Rattle.plan_text.specs.Reading as spec;

use crate::fault::PlanFault;
use crate::form::Row;

/// That line `number` tells a figure as it is.
pub(crate) fn check_figure(number: u64, told: u32, is: u32) -> Result<(), PlanFault>
    ensures { result ≡ spec.is_right number told is }
{
    if told != is {
        return Err(PlanFault::Figure(number, told, is));
    }
    Ok(())
}

/// That line `number` tells each figure of its row as it is: the end, the tardiness and, where they are told, the early
/// days.
pub(crate) fn check_figures(number: u64, row: &Row<'_>, due: u32, end: u32) -> Result<(), PlanFault>
    ensures { result ≡ spec.are_right number (spec.figures (entry row.now) due end) }
{
    check_figure(number, row.end, end)?;
    check_figure(number, row.tardiness, end.saturating_sub(due))?;
    match row.early {
        Some(early) => check_figure(number, early, due.saturating_sub(end)),
        None => Ok(()),
    }
}

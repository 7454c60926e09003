//! Lines of blocks.
ghost use Rattle.std.specs.Prelude.{◌≡◌, ◌++◌, OnOk};
ghost use Rattle.std.specs.String.{string_bytes};
ghost use Rattle.plan_text.specs.Texts.{block_line, last_words, line};

use crate::names::text_of;
use code_table::Placement;
use shape_exact::Name;
use std::alloc::AllocError;

/// Writes the end of a block's line: the tardiness, the early days where they are told, and the line feed.
fn put_last_words(out: &mut String, with_early: bool, due: u16, end: u16) -> Result<(), AllocError>
    ensures { OnOk result (string_bytes out.new ≡ string_bytes out.old ++ line (last_words with_early due end)) }
{
    let late = end.saturating_sub(due);
    if with_early {
        let early = due.saturating_sub(end);
        return write!(out, "tardiness {late} early {early}\n");
    }
    write!(out, "tardiness {late}\n")
}

/// Writes the line of a block that stands at the placement, on a plate of this name, with or without its early days.
#[tactic(auto, unfolding(crate::specs::Texts::block_line))]
pub(crate) fn put_row(
    out: &mut String,
    with_early: bool,
    name: &Name,
    due: u16,
    plate: &Name,
    place: Placement,
) -> Result<(), AllocError>
    ensures { OnOk result (string_bytes out.new
        ≡ string_bytes out.old ++ block_line with_early name.now due plate.now place) }
{
    let Placement {
        turn,
        x,
        y,
        start,
        end,
        ..
    } = place;
    let name = text_of(name);
    let plate = text_of(plate);
    write!(out, "block {name} plate {plate} turn {turn} ")?;
    write!(out, "x {x} y {y} start {start} ")?;
    write!(out, "end {end} ")?;
    put_last_words(out, with_early, due, end)
}

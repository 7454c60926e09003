//! Writes plates and blocks.
ghost use Rattle.std.specs.Prelude.{◌≡◌, ◌≤◌, ◌++◌, codes, OnOk};
ghost use Rattle.std.specs.String.{string_bytes};
ghost use Rattle.yard_generator.specs.Texts as spec;

use crate::draws::Drawn;
use std::alloc::AllocError;

/// Writes numbers after others, and the end of their list.
fn put_further(out: &mut String, numbers: &[u16]) -> Result<(), AllocError>
    ensures { OnOk result (string_bytes out.new ≡ string_bytes out.old ++ spec.further numbers.now) }
{
    for number in numbers {
        write!(out, ", {number}")?;
    }
    out.push_str("]")
}

/// Writes numbers in brackets.
fn put_numbers(out: &mut String, numbers: &[u16]) -> Result<(), AllocError>
    ensures { OnOk result (string_bytes out.new ≡ string_bytes out.old ++ spec.numbers numbers.now) }
{
    match numbers {
        [] => out.push_str("[]"),
        [first, rest @ ..] => {
            write!(out, "[{first}")?;
            put_further(out, rest)
        }
    }
}

/// Writes a line with a number.
fn put_number_line(out: &mut String, key: &str, number: u16) -> Result<(), AllocError>
    ensures { OnOk result (string_bytes out.new ≡ string_bytes out.old ++ spec.number_line key.now number) }
{
    write!(out, "{key} = {number}\n")
}

/// Writes the heading and the name of a table.
fn put_head(out: &mut String, table: &str, letter: &str, number: u8) -> Result<(), AllocError>
    ensures { OnOk result (string_bytes out.new ≡ string_bytes out.old ++ spec.head_text table.now letter.now number) }
{
    write!(out, "[[{table}]]\nname = \"{letter}{number}\"\n")
}

/// Writes the sides and the pitch of a plate.
fn put_sides(out: &mut String) -> Result<(), AllocError>
    ensures { OnOk result (string_bytes out.new ≡ string_bytes out.old ++ spec.sides_text) }
{
    put_number_line(out, "width", 60)?;
    put_number_line(out, "height", 40)?;
    put_number_line(out, "pitch", 2)
}

/// Writes the line of the closed days.
fn put_closed(out: &mut String, days: &[u16]) -> Result<(), AllocError>
    ensures { OnOk result (string_bytes out.new ≡ string_bytes out.old ++ spec.closed_text days.now) }
{
    out.push_str("closed = ")?;
    put_numbers(out, days)?;
    out.push_str("\n")
}

/// Writes a plate with these closed days.
#[tactic(auto, unfolding(crate::specs::Texts::plate_text))]
pub(crate) fn put_plate(out: &mut String, number: u8, closed: &[u16]) -> Result<(), AllocError>
    requires { closed.now ≡ spec.closed_days }
    ensures { OnOk result (string_bytes out.new ≡ string_bytes out.old ++ spec.plate_text number) }
{
    put_head(out, "plate", "P", number)?;
    put_sides(out)?;
    put_closed(out, closed)
}

/// Writes the three lower corners of a rectangle, whose right side ends at `low`.
fn put_lower(out: &mut String, width: u16, low: u16) -> Result<(), AllocError>
    ensures { OnOk result (string_bytes out.new ≡ string_bytes out.old ++ spec.lower_text width low) }
{
    write!(out, "shape = [[0, 0], [{width}, 0], [{width}, {low}], ")
}

/// Writes the two upper corners of a rectangle, whose upper side begins at `near`.
fn put_upper(out: &mut String, near: u16, height: u16) -> Result<(), AllocError>
    ensures { OnOk result (string_bytes out.new ≡ string_bytes out.old ++ spec.upper_text near height) }
{
    write!(out, "[{near}, {height}], [0, {height}]]\n")
}

/// Writes a rectangle with the upper right corner cut off.
fn put_shape(out: &mut String, width: u16, height: u16, cut: u16) -> Result<(), AllocError>
    requires wide { cut ≤ width }
    requires high { cut ≤ height }
    ensures { OnOk result (string_bytes out.new ≡ string_bytes out.old ++ spec.shape_text width height cut) }
{
    put_lower(out, width, height - cut)?;
    put_upper(out, width - cut, height)
}

/// Writes the days and the weight of a block.
#[tactic(auto, unfolding(crate::specs::Texts::figures_text))]
fn put_figures(out: &mut String, block: Drawn) -> Result<(), AllocError>
    ensures { OnOk result (string_bytes out.new ≡ string_bytes out.old ++ spec.figures_text block) }
{
    put_number_line(out, "duration", block.duration)?;
    put_number_line(out, "release", block.release)?;
    put_number_line(out, "due", block.due)?;
    put_number_line(out, "weight", block.weight)
}

/// Writes a block.
#[tactic(auto, unfolding(crate::specs::Texts::block_text))]
pub(crate) fn put_block(out: &mut String, number: u8, block: Drawn) -> Result<(), AllocError>
    requires wide { block.cut ≤ block.width }
    requires high { block.cut ≤ block.height }
    ensures { OnOk result (string_bytes out.new ≡ string_bytes out.old ++ spec.block_text number block) }
{
    put_head(out, "block", "B", number)?;
    put_shape(out, block.width, block.height, block.cut)?;
    out.push_str("turns = [0, 1]\n")?;
    put_figures(out, block)
}

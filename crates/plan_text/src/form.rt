//! The form of a block's line, and of the total's.
ghost use Rattle.std.specs.Prelude.{◌≡◌, option_map};
ghost use Rattle.plan_text.specs.Rows as spec;

use shape_exact::Name;
use text_parts::{cut, number_of};

/// What the line of a block tells.
#[derive(Clone, Copy, Drop)]
pub(crate) struct Row<'a> {
    pub(crate) name: &'a [u8],
    pub(crate) plate: &'a [u8],
    pub(crate) turn: u32,
    pub(crate) x: u32,
    pub(crate) y: u32,
    pub(crate) start: u32,
    pub(crate) end: u32,
    pub(crate) tardiness: u32,
    pub(crate) early: Option<u32>,
}

/// What follows the word and a space.
fn after_word<'a>(word: &[u8], text: &'a [u8]) -> Option<&'a [u8]>
    ensures { option_map (λ r. r.now) result ≡ spec.after_word word.now text.now }
{
    match cut(text, b' ') {
        Some((front, rest)) if front == word => Some(rest),
        _ => None,
    }
}

/// The word, where it is a name.
fn name_of(word: &[u8]) -> Option<&[u8]>
    ensures { option_map (λ w. w.now) result ≡ spec.name_of word.now }
{
    match Name::read(word) {
        Some(_) => Some(word),
        None => None,
    }
}

/// The name after the word, and what follows it and a space.
fn name_after<'a>(word: &[u8], text: &'a [u8]) -> Option<(&'a [u8], &'a [u8])>
    ensures { option_map (λ p. (p.0.now, p.1.now)) result ≡ spec.part_after spec.name_of word.now text.now }
{
    let text = after_word(word, text)?;
    let (front, rest) = cut(text, b' ')?;
    let name = name_of(front)?;
    Some((name, rest))
}

/// The figure that the whole text is.
fn figure_of(text: &[u8]) -> Option<u32>
    ensures { result ≡ spec.figure_of text.now }
{
    match number_of(4_294_967_295, text) {
        Some(number) => Some(number as u32),
        None => None,
    }
}

/// The figure after the word, and what follows it and a space.
fn figure_after<'a>(word: &[u8], text: &'a [u8]) -> Option<(u32, &'a [u8])>
    ensures { option_map (λ p. (p.0, p.1.now)) result ≡ spec.part_after spec.figure_of word.now text.now }
{
    let text = after_word(word, text)?;
    let (front, rest) = cut(text, b' ')?;
    let number = figure_of(front)?;
    Some((number, rest))
}

/// The figures with which a block's line ends: the tardiness and, where they are to be told, the early days.
fn last_figures(with_early: bool, text: &[u8]) -> Option<(u32, Option<u32>)>
    ensures { result ≡ spec.last_figures with_early text.now }
{
    if !with_early {
        let tardiness = figure_of(after_word(b"tardiness", text)?)?;
        return Some((tardiness, None));
    }
    let (tardiness, rest) = figure_after(b"tardiness", text)?;
    let early = figure_of(after_word(b"early", rest)?)?;
    Some((tardiness, Some(early)))
}

/// What the line of a block tells, without its line feed, with or without early days; None exactly where it has not the
/// form of one.
#[tactic(auto, unfolding(crate::specs::Rows::row_of))]
pub(crate) fn row_of(with_early: bool, line: &[u8]) -> Option<Row<'_>>
    ensures { option_map spec.entry result ≡ spec.row_of with_early line.now }
{
    let (name, rest) = name_after(b"block", line)?;
    let (plate, rest) = name_after(b"plate", rest)?;
    let (turn, rest) = figure_after(b"turn", rest)?;
    let (x, rest) = figure_after(b"x", rest)?;
    let (y, rest) = figure_after(b"y", rest)?;
    let (start, rest) = figure_after(b"start", rest)?;
    let (end, rest) = figure_after(b"end", rest)?;
    let (tardiness, early) = last_figures(with_early, rest)?;
    Some(Row {
        name,
        plate,
        turn,
        x,
        y,
        start,
        end,
        tardiness,
        early,
    })
}

/// The total that the line tells, without its line feed; None exactly where it has not the form of the total's line.
pub(crate) fn total_in(line: &[u8]) -> Option<u32>
    ensures { result ≡ spec.total_in line.now }
{
    figure_of(after_word(b"total", line)?)
}

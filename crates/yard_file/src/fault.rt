//! Why a file is refused, and the line that says so.
ghost use Rattle.std.specs.Prelude.{◌≡◌, ◌∷◌, [], IfOk, codes, decimal};
ghost use Rattle.yard_file.specs.Places.{at_text};
ghost use Rattle.yard_file.specs.Lines.{day_words, line, line_of, shape_words};

use crate::{At, Key};
use arrayvec::ArrayVec;
use plate_calendar::DayFault;
use shape_exact::{NoMemory, ShapeFault};
use std::alloc::Global;

/// An unknown key: its first 32 characters, each that is not printable ASCII replaced by `?`.
pub type Word = ArrayVec<u8, 32>;

/// The first rule that a file breaks, in the order of `docs/FORMATS.md`. Plates, blocks, fixed pieces and items of
/// arrays are numbered from 0; a count of more than 4,294,967,295 tables is told as that number.
#[derive(Clone, Debug, Drop, PartialEq, Eq)]
pub enum YardFault {
    TooLong,
    NotToml,
    Missing(At, Key),
    Unknown(At, Word),
    Kind(At, Key),
    Version(i64),
    Number(At, Key, i64),
    NoPlate,
    TooManyPlates(u32),
    NoBlock,
    TooManyBlocks(u32),
    NameTwice(At),
    BadName(At),
    Day(u8, DayFault),
    Shape(u8, ShapeFault),
    Turn(u8, u32),
    TooManyPlacements(u8, u64),
    TooManyFixed(u32),
    FixedPlate(u8),
    FixedShape(u8, ShapeFault),
    FixedDays(u8),
    FixedOutside(u8),
    FixedClash(u8, u8),
    Memory,
}

/// The line of an unknown key.
fn unknown_line(alloc: Global, at: At, word: &[u8]) -> Result<Vec<u8>, NoMemory>
    ensures { IfOk result (λ text. text.items ≡ line_of (codes "refused yard 4 Unknown" ∷ at_text at ∷ word.now ∷ [])) }
{
    let mut text = format!(in alloc; "refused yard 4 Unknown {at} ")?.into_bytes();
    text.extend_from_slice(word)?;
    text.push(b'\n')?;
    Ok(text)
}

/// The line of a wrong day of a plate.
fn day_line(alloc: Global, at: At, fault: DayFault) -> Result<Vec<u8>, NoMemory>
    ensures { IfOk result (λ text. text.items ≡ line_of (codes "refused yard 14 Day" ∷ at_text at ∷ day_words fault)) }
{
    let text = match fault {
        DayFault::Range(i) => format!(in alloc; "refused yard 14 Day {at} Range {i}\n")?,
        DayFault::Twice(i) => format!(in alloc; "refused yard 14 Day {at} Twice {i}\n")?,
    };
    Ok(text.into_bytes())
}

/// The line of points that are no footprint; `head` is its number and its name.
fn shape_line(alloc: Global, head: &str, at: At, fault: ShapeFault) -> Result<Vec<u8>, NoMemory>
    ensures { IfOk result (λ text. text.items ≡ line_of (head.now ∷ at_text at ∷ shape_words fault)) }
{
    let text = match fault {
        ShapeFault::TooFew => format!(in alloc; "{head} {at} TooFew\n")?,
        ShapeFault::TooMany => format!(in alloc; "{head} {at} TooMany\n")?,
        ShapeFault::Range(i) => format!(in alloc; "{head} {at} Range {i}\n")?,
        ShapeFault::Equal(i, j) => format!(in alloc; "{head} {at} Equal {i} {j}\n")?,
        ShapeFault::NotConvex(e, v) => format!(in alloc; "{head} {at} NotConvex {e} {v}\n")?,
        ShapeFault::Flat => format!(in alloc; "{head} {at} Flat\n")?,
    };
    Ok(text.into_bytes())
}

/// The line of a fault with one number; `head` is the fault's own number and its name.
fn number_line(alloc: Global, head: &str, number: u32) -> Result<Vec<u8>, NoMemory>
    ensures { IfOk result (λ text. text.items ≡ line_of (head.now ∷ decimal number ∷ [])) }
{
    Ok(format!(in alloc; "{head} {number}\n")?.into_bytes())
}

impl YardFault {
    /// The line that tells the fault; nothing for want of memory.
    pub fn line(&self, alloc: Global) -> Result<Vec<u8>, NoMemory>
        ensures { IfOk result (λ text. text.items ≡ line self.now) }
    {
        let text = match self {
            YardFault::TooLong => format!(in alloc; "refused yard 1 TooLong\n")?,
            YardFault::NotToml => format!(in alloc; "refused yard 2 NotToml\n")?,
            YardFault::Missing(at, key) => format!(in alloc;
                "refused yard 3 Missing {at} {key}\n"
            )?,
            YardFault::Unknown(at, word) => return unknown_line(alloc, *at, word.as_slice()),
            YardFault::Kind(at, key) => format!(in alloc; "refused yard 5 Kind {at} {key}\n")?,
            YardFault::Version(n) => format!(in alloc; "refused yard 6 Version {n}\n")?,
            YardFault::Number(at, key, n) => format!(in alloc;
                "refused yard 7 Number {at} {key} {n}\n"
            )?,
            YardFault::NoPlate => format!(in alloc; "refused yard 8 NoPlate\n")?,
            YardFault::TooManyPlates(n) => return number_line(
                alloc,
                "refused yard 9 TooManyPlates",
                *n,
            ),
            YardFault::NoBlock => format!(in alloc; "refused yard 10 NoBlock\n")?,
            YardFault::TooManyBlocks(n) => return number_line(
                alloc,
                "refused yard 11 TooManyBlocks",
                *n,
            ),
            YardFault::NameTwice(at) => format!(in alloc; "refused yard 12 NameTwice {at}\n")?,
            YardFault::BadName(at) => format!(in alloc; "refused yard 13 BadName {at}\n")?,
            YardFault::Day(i, fault) => return day_line(alloc, At::Plate(*i), *fault),
            YardFault::Shape(i, fault) => return shape_line(
                alloc,
                "refused yard 15 Shape",
                At::Block(*i),
                *fault,
            ),
            YardFault::Turn(i, n) => format!(in alloc; "refused yard 16 Turn block {i} {n}\n")?,
            YardFault::TooManyPlacements(b, n) => format!(in alloc;
                "refused yard 17 TooManyPlacements {b} {n}\n"
            )?,
            YardFault::TooManyFixed(n) => return number_line(
                alloc,
                "refused yard 19 TooManyFixed",
                *n,
            ),
            YardFault::FixedPlate(i) => return number_line(
                alloc,
                "refused yard 20 FixedPlate",
                u32::from(*i),
            ),
            YardFault::FixedShape(i, fault) => return shape_line(
                alloc,
                "refused yard 21 FixedShape",
                At::Fixed(*i),
                *fault,
            ),
            YardFault::FixedDays(i) => return number_line(
                alloc,
                "refused yard 22 FixedDays",
                u32::from(*i),
            ),
            YardFault::FixedOutside(i) => return number_line(
                alloc,
                "refused yard 23 FixedOutside",
                u32::from(*i),
            ),
            YardFault::FixedClash(j, i) => format!(in alloc;
                "refused yard 24 FixedClash {j} {i}\n"
            )?,
            YardFault::Memory => String::new(alloc),
        };
        Ok(text.into_bytes())
    }
}

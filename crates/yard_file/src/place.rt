//! Where a rule is broken: a table and a key.
ghost use Rattle.std.specs.Prelude.{◌≡◌, Some};
ghost use Rattle.yard_file.specs.Places.{at_text, word};

use std::fmt;

/// A table of a yard file: the top one, or a plate, a block or a fixed piece by its number, counted from 0.
#[derive(Clone, Copy, Debug, PartialEq, Eq)]
pub enum At {
    Top,
    Plate(u8),
    Block(u8),
    Fixed(u8),
}

/// A key of a yard file.
#[derive(Clone, Copy, Debug, PartialEq, Eq)]
pub enum Key {
    Version,
    Days,
    Plate,
    Block,
    Name,
    Width,
    Height,
    Pitch,
    Closed,
    Shape,
    Turns,
    Duration,
    Release,
    Due,
    Weight,
    Early,
    Fixed,
    Turn,
    X,
    Y,
    From,
    To,
}

impl Key {
    /// The key as it stands in a file.
    pub fn word(self) -> &'static str
        ensures { result.now ≡ word self }
    {
        match self {
            Key::Version => "version",
            Key::Days => "days",
            Key::Plate => "plate",
            Key::Block => "block",
            Key::Name => "name",
            Key::Width => "width",
            Key::Height => "height",
            Key::Pitch => "pitch",
            Key::Closed => "closed",
            Key::Shape => "shape",
            Key::Turns => "turns",
            Key::Duration => "duration",
            Key::Release => "release",
            Key::Due => "due",
            Key::Weight => "weight",
            Key::Early => "early",
            Key::Fixed => "fixed",
            Key::Turn => "turn",
            Key::X => "x",
            Key::Y => "y",
            Key::From => "from",
            Key::To => "to",
        }
    }
}

impl fmt::Display for At {
    ghost output = { λ at. Some (at_text at) };

    fn fmt<W: fmt::Write>(&self, f: &mut fmt::Formatter<W>) -> fmt::Result {
        match self {
            At::Top => write!(f, "top"),
            At::Plate(i) => write!(f, "plate {i}"),
            At::Block(i) => write!(f, "block {i}"),
            At::Fixed(i) => write!(f, "fixed {i}"),
        }
    }
}

impl fmt::Display for Key {
    ghost output = { λ key. Some (word key) };

    fn fmt<W: fmt::Write>(&self, f: &mut fmt::Formatter<W>) -> fmt::Result {
        f.write_str(self.word())
    }
}

//! Yards that are drawn from a seed, as texts of yard files.
//!
//! A generated yard has 200 days, three plates of 60 by 40 with each seventh pair of days closed, and as many blocks as are
//! asked for: rectangles with one corner cut off, whose sizes, days and weights are drawn. The text is that of
//! `docs/FORMATS.md`, byte by byte.
#![tactic(auto)]

mod drawn;
mod draws;
mod texts;
mod yards;

pub use drawn::drawn_yard;
pub use yards::generate;

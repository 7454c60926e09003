//! Spans of codes.

/// The codes of a block from `lo` up to, and without, `hi`.
#[derive(Clone, Copy, PartialEq, Eq, Debug)]
pub(crate) struct Span {
    pub lo: u32,
    pub hi: u32,
}

//! How a run ended.

/// How a run ended: 0 done, 1 refused input, 2 usage, 3 no plan, 4 read fault, 5 write fault, 6 want of memory,
/// 7 not certified.
#[derive(Clone, Copy, Debug, PartialEq, Eq)]
pub struct Status(pub u8);

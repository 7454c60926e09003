//! Yards of one and of two blocks.

/// A square of 2 by 2 on a plate of 4 by 3, due on day 1 of ten.
pub const ONE_BLOCK: &[u8] = b"version = 1
days = 10
plate = [{ name = 'P', width = 4, height = 3 }]
block = [{ name = 'A', shape = [[0,0],[2,0],[2,2],[0,2]], duration = 2, due = 1 }]
";

/// Two squares that do not fit side by side.
pub const TWO_SQUARES: &[u8] = b"version = 1
days = 10
plate = [{ name = 'P', width = 4, height = 3 }]
block = [
    { name = 'A', weight = 5, shape = [[0,0],[3,0],[3,3],[0,3]], duration = 2, due = 1 },
    { name = 'B', weight = 5, shape = [[0,0],[3,0],[3,3],[0,3]], duration = 2, due = 1 },
]
";

/// A rectangle that fills the plate and has one code, eight days late, and a square that is in time before it.
pub const ONE_CODE: &[u8] = b"version = 1
days = 10
plate = [{ name = 'P', width = 4, height = 3 }]
block = [
    { name = 'A', weight = 5, shape = [[0,0],[4,0],[4,3],[0,3]], duration = 2, release = 8, due = 1 },
    { name = 'B', weight = 5, shape = [[0,0],[3,0],[3,3],[0,3]], duration = 2, due = 1 },
]
";

/// Two triangles that may not be turned, each with one code. They clash.
pub const TWO_TRIANGLES: &[u8] = b"version = 1
days = 1
plate = [{ name = 'P', width = 4, height = 4 }]
block = [
    { name = 'A', shape = [[0,0],[4,0],[0,4]], duration = 1, due = 0 },
    { name = 'B', shape = [[0,0],[4,0],[0,4]], duration = 1, due = 0 },
]
";

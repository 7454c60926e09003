//! Parts of yard files.

pub const TEN_DAYS: &str = "version = 1\ndays = 10\n";

pub const TWO_DAYS: &str = "version = 1\ndays = 2\n";

pub const LONG: &str = "version = 1\ndays = 256\n";

pub const ONE_DAY: &str = "version = 1\ndays = 1\n";

pub const PLATE_4X3: &str = "[[plate]]\nname = \"P\"\nwidth = 4\nheight = 3\n";

pub const PLATE_1X3: &str = "[[plate]]\nname = \"P\"\nwidth = 1\nheight = 3\n";

pub const PLATE_4X4: &str = "[[plate]]\nname = \"P\"\nwidth = 4\nheight = 4\n";

pub const PLATE_3X2: &str = "[[plate]]\nname = \"P\"\nwidth = 3\nheight = 2\n";

pub const PLATE_64X64: &str = "[[plate]]\nname = \"P\"\nwidth = 64\nheight = 64\n";

pub const PLATE_64X65: &str = "[[plate]]\nname = \"P\"\nwidth = 64\nheight = 65\n";

pub const PLATE_CLOSED: &str = "[[plate]]\nname = \"P\"\nwidth = 2\nheight = 2\nclosed = [5]\n";

pub const A: &str = "[[block]]\nname = \"A\"\n";

pub const B: &str = "[[block]]\nname = \"B\"\n";

pub const C: &str = "[[block]]\nname = \"C\"\n";

pub const SQUARE_2: &str = "shape = [[0,0],[2,0],[2,2],[0,2]]\n";

pub const SQUARE_2_CLOCKWISE: &str = "shape = [[0,0],[0,2],[1,2],[2,2],[2,0]]\n";

pub const SQUARE_3: &str = "shape = [[0,0],[3,0],[3,3],[0,3]]\n";

pub const TRIANGLE: &str = "shape = [[0,0],[4,0],[0,4]]\n";

pub const COLUMN: &str = "shape = [[0,0],[1,0],[1,2],[0,2]]\n";

pub const CELL: &str = "shape = [[0,0],[1,0],[1,1],[0,1]]\n";

pub const NOT_CONVEX: &str = "shape = [[0,0],[10,6],[-2,6],[8,0],[4,10]]\n";

pub const TWO_DAYS_DUE_1: &str = "duration = 2\ndue = 1\n";

pub const ONE_DAY_DUE_0: &str = "duration = 1\ndue = 0\n";

pub const ONE_DAY_DUE_1: &str = "duration = 1\ndue = 1\n";

pub const FROM_4: &str = "duration = 2\nrelease = 4\ndue = 6\n";

pub const FROM_5: &str = "duration = 2\nrelease = 5\ndue = 6\n";

pub const HALF_TURN: &str = "turns = [0, 2]\n";

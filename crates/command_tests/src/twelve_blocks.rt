//! A yard of three plates, weekends closed, and twelve blocks, worked by hand.

/// Every placement of these footprints holds the plate's centre, so two blocks never share a plate and a day.
pub const YARD: &str = "version = 1
days = 60
[[plate]]
name = \"P1\"
width = 40
height = 24
pitch = 2
closed = [5, 6, 12, 13, 19, 20, 26, 27, 33, 34, 40, 41, 47, 48, 54, 55]
[[plate]]
name = \"P2\"
width = 40
height = 24
pitch = 2
closed = [5, 6, 12, 13, 19, 20, 26, 27, 33, 34, 40, 41, 47, 48, 54, 55]
[[plate]]
name = \"P3\"
width = 40
height = 24
pitch = 2
closed = [5, 6, 12, 13, 19, 20, 26, 27, 33, 34, 40, 41, 47, 48, 54, 55]
[[block]]
name = \"S101\"
shape = [[4,0],[20,0],[24,4],[24,10],[20,14],[4,14],[0,10],[0,4]]
turns = [0, 2]
duration = 5
release = 0
due = 20
weight = 3
[[block]]
name = \"S102\"
shape = [[0,0],[24,0],[24,14],[0,14]]
turns = [0, 2]
duration = 4
release = 0
due = 20
weight = 3
[[block]]
name = \"S103\"
shape = [[0,0],[20,0],[24,4],[24,14],[0,14]]
turns = [0, 2]
duration = 3
release = 0
due = 20
weight = 3
[[block]]
name = \"S104\"
shape = [[0,0],[20,0],[24,4],[24,10],[20,14],[0,14]]
turns = [0, 2]
duration = 5
release = 7
due = 25
weight = 3
[[block]]
name = \"S105\"
shape = [[4,0],[20,0],[24,4],[24,10],[20,14],[4,14],[0,10],[0,4]]
turns = [0, 2]
duration = 5
release = 7
due = 25
weight = 3
[[block]]
name = \"S106\"
shape = [[0,0],[24,0],[24,14],[0,14]]
turns = [0, 2]
duration = 2
release = 7
due = 25
weight = 3
[[block]]
name = \"S107\"
shape = [[0,0],[20,0],[24,4],[24,14],[0,14]]
turns = [0, 2]
duration = 3
release = 14
due = 30
weight = 3
[[block]]
name = \"S108\"
shape = [[0,0],[20,0],[24,4],[24,10],[20,14],[0,14]]
turns = [0, 2]
duration = 5
release = 14
due = 30
weight = 3
[[block]]
name = \"S109\"
shape = [[4,0],[20,0],[24,4],[24,10],[20,14],[4,14],[0,10],[0,4]]
turns = [0, 2]
duration = 4
release = 14
due = 30
weight = 3
[[block]]
name = \"S110\"
shape = [[0,0],[24,0],[24,14],[0,14]]
turns = [0, 2]
duration = 8
release = 21
due = 45
weight = 3
[[block]]
name = \"S111\"
shape = [[0,0],[20,0],[24,4],[24,14],[0,14]]
turns = [0, 2]
duration = 8
release = 21
due = 45
weight = 3
[[block]]
name = \"S112\"
shape = [[0,0],[20,0],[24,4],[24,10],[20,14],[0,14]]
turns = [0, 2]
duration = 10
release = 21
due = 45
weight = 3
";

pub const PLAN: &str = "plan 1
block S101 plate P1 turn 0 x 0 y 0 start 0 end 4 tardiness 0
block S102 plate P2 turn 0 x 0 y 0 start 0 end 3 tardiness 0
block S103 plate P3 turn 0 x 0 y 0 start 0 end 2 tardiness 0
block S104 plate P1 turn 0 x 0 y 0 start 7 end 11 tardiness 0
block S105 plate P2 turn 0 x 0 y 0 start 7 end 11 tardiness 0
block S106 plate P3 turn 0 x 0 y 0 start 7 end 8 tardiness 0
block S107 plate P1 turn 0 x 0 y 0 start 14 end 16 tardiness 0
block S108 plate P2 turn 0 x 0 y 0 start 14 end 18 tardiness 0
block S109 plate P3 turn 0 x 0 y 0 start 14 end 17 tardiness 0
block S110 plate P1 turn 0 x 0 y 0 start 21 end 30 tardiness 0
block S111 plate P2 turn 0 x 0 y 0 start 21 end 30 tardiness 0
block S112 plate P3 turn 0 x 0 y 0 start 21 end 32 tardiness 0
total 0
";

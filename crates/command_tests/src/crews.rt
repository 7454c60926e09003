//! Plans by crews of several sizes: the same text each time, and a log that `check` certifies.

use super::yards::*;
use crate::commands::says_to;

const THREE_BLOCKS: &[&str] = &[
    TEN_DAYS,
    PLATE_3X2,
    A,
    SQUARE_2,
    TWO_DAYS_DUE_1,
    "weight = 2\n",
    B,
    COLUMN,
    TWO_DAYS_DUE_1,
    "weight = 3\n",
    C,
    CELL,
    ONE_DAY_DUE_1,
    "weight = 4\n",
];

const PLAN: &str = "plan 1
block A plate P turn 0 x 0 y 0 start 1 end 2 tardiness 1
block B plate P turn 0 x 2 y 0 start 0 end 1 tardiness 0
block C plate P turn 0 x 0 y 0 start 0 end 0 tardiness 0
total 2
";

#[test]
fn crews_of_several_sizes_say_the_same(rt: HostRuntime) {
    for workers in ["1", "2", "7", "16"] {
        for split in ["0", "6", "20"] {
            let words = ["plan", "y", "l", workers, split];
            assert_eq!(rt;
                says_to(&rt, &words, THREE_BLOCKS, PLAN),
                Some((0, true)),
                "{workers} workers, split {split}"
            );
        }
    }
}

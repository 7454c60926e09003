//! `load`: the summary of the best plan of a generated yard. The placements were counted by a slow program that walks the
//! open days. Every generated yard has a plan of total 0. In the best one the first block has code 0, and the second block,
//! which may have to stand beside it, a code of at most 6. Each block has at least 2^18 codes, so the 32 halvings end in the
//! range of the second block, with at least 17 codes left: each takes the lower half, and the path is 0.

use scheduler_run::run_quietly;
use std::thread::Threads;
use yard_io::QuietDesk;

/// The status of `load` with these words, and whether the text was said; None where memory was wanting.
fn loads<R: Threads + Sync + AllocGlobal>(
    rt: &R,
    words: [&str; 3],
    said: &str,
) -> Option<(u8, bool)> {
    let mut desk = QuietDesk::new(rt.alloc(), 64).ok()?;
    let [seed, blocks, workers] = words;
    let ended = run_quietly(rt, rt.alloc(), &["load", seed, blocks, workers], &mut desk);
    Some((ended.0, desk.said() == said.as_bytes()))
}

#[test]
fn generated_yards_are_summed_up(rt: HostRuntime) {
    let cases = [
        (
            ["1", "1", "1"],
            "load 1 1\nplacements 336960\ntotal 0\npath 0\n",
        ),
        (
            ["0", "2", "1"],
            "load 0 2\nplacements 751710\ntotal 0\npath 0\n",
        ),
        (
            ["0", "2", "16"],
            "load 0 2\nplacements 751710\ntotal 0\npath 0\n",
        ),
        (
            ["2147483647", "1", "2"],
            "load 2147483647 1\nplacements 294750\ntotal 0\npath 0\n",
        ),
    ];
    for (words, said) in cases {
        assert_eq!(rt; loads(&rt, words, said), Some((0, true)), "at {said}");
    }
}

/// The largest yards, each within the 60 seconds that a test has.
#[test]
fn one_worker_sums_up_32_blocks(rt: HostRuntime) {
    let said = "load 1 32\nplacements 11912412\ntotal 0\npath 0\n";
    assert_eq!(rt; loads(&rt, ["1", "32", "1"], said), Some((0, true)));
}

#[test]
fn four_workers_sum_up_32_blocks(rt: HostRuntime) {
    let said = "load 2147483647 32\nplacements 11644350\ntotal 0\npath 0\n";
    assert_eq!(rt;
        loads(&rt, ["2147483647", "32", "4"], said),
        Some((0, true))
    );
}

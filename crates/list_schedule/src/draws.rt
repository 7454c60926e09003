//! Numbers that are drawn by a linear congruence.
ghost use Rattle.std.specs.Prelude.{◌<◌};

/// A linear congruence modulo 2^64, with the factor and the step of Knuth's MMIX. A seed always begins with the same state.
#[derive(Drop)]
pub struct Draws {
    state: u64,
}

impl Draws {
    /// The first state of a seed.
    pub fn of_seed(seed: u32) -> Draws {
        Draws {
            state: 12345 + u64::from(seed),
        }
    }

    /// A number below `n`, by the high bits of the next state.
    pub fn below(&mut self, n: usize) -> usize
        requires { 0 < n }
        ensures { result < n }
    {
        self.state = self
            .state
            .wrapping_mul(6_364_136_223_846_793_005)
            .wrapping_add(1_442_695_040_888_963_407);
        (self.state / 0x2_0000_0000) as usize % n
    }
}

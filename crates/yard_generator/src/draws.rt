//! Drawn numbers, and the blocks that they give.
ghost use Rattle.std.specs.Prelude.{◌≡◌, ◌<◌, ◌≤◌, ◌^◌};
ghost use Rattle.yard_generator.specs.Draws.{after, block_at, drawn, next};

/// What is drawn of a block: the sides of its rectangle, how much of a corner is cut off, and its days and weight.
#[derive(Clone, Copy)]
pub struct Drawn {
    pub width: u16,
    pub height: u16,
    pub cut: u16,
    pub duration: u16,
    pub release: u16,
    pub due: u16,
    pub weight: u16,
}

/// A state from which numbers are drawn: the linear congruential generator of the C standard's example, of which the
/// upper bits are taken.
#[derive(Drop)]
pub struct Draws {
    state: u32,
    ghost small: { state < 2 ^ 31 },
}

impl Draws {
    /// The state is the seed.
    pub fn new(seed: u32) -> Draws
        requires { seed < 2 ^ 31 }
        ensures { result.state ≡ seed }
    {
        Draws { state: seed }
    }

    /// A number below `count`.
    #[tactic(auto, unfolding(crate::specs::Draws::next))]
    pub fn draw(&mut self, count: u16) -> u16
        requires { 0 < count }
        ensures value { result ≡ drawn self.new.state count }
        ensures below { result < count }
        ensures state { self.new.state ≡ next self.old.state }
    {
        let state = (u64::from(self.state) * 1_103_515_245 + 12_345) % 2_147_483_648;
        self.state = state as u32;
        ((state / 65_536) % u64::from(count)) as u16
    }

    /// The block that the next seven numbers give.
    #[tactic(auto, unfolding(crate::specs::Draws::block_at))]
    pub fn block(&mut self) -> Drawn
        ensures block { result ≡ block_at self.old.state }
        ensures wide { result.cut ≤ result.width }
        ensures high { result.cut ≤ result.height }
        ensures state { self.new.state ≡ after 7 self.old.state }
    {
        let width = 4 + 2 * self.draw(5);
        let height = 4 + 2 * self.draw(5);
        let cut = 1 + self.draw(2);
        let duration = 1 + self.draw(5);
        let release = self.draw(20);
        let due = release + 60 + self.draw(20);
        let weight = 1 + self.draw(9);
        Drawn {
            width,
            height,
            cut,
            duration,
            release,
            due,
            weight,
        }
    }
}

//! The numbers that are drawn.

ghost use Rattle.std.specs.Prelude.{◌≡◌};
ghost use Rattle.cmd_gen.specs.Draws.{behind_pair, drawn, next_state, pair_of};

use crate::pair::Pair;

/// The multiplier of the draws.
const FACTOR: u64 = 6364136223846793005;

/// What is added in each draw.
const SUMMAND: u64 = 1442695040888963407;

/// A source of numbers: a state of 64 bits, of whose next states the high 32 bits are drawn.
#[derive(Drop)]
pub struct Draws {
    pub state: u64,
}

impl Draws {
    /// A source whose state is the seed.
    pub fn new(seed: u64) -> Draws
        ensures { result.state ≡ seed }
    {
        Draws { state: seed }
    }

    /// The next two numbers.
    pub fn pair(&mut self) -> Pair
        ensures pair { result ≡ pair_of self.old.state }
        ensures state { self.new.state ≡ behind_pair self.old.state }
    {
        let first = self.draw();
        let second = self.draw();
        Pair { first, second }
    }

    /// The next number.
    fn draw(&mut self) -> u32
        ensures number { result ≡ drawn self.new.state }
        ensures state { self.new.state ≡ next_state self.old.state }
    {
        self.state = self.state.wrapping_mul(FACTOR).wrapping_add(SUMMAND);
        (self.state >> 32) as u32
    }
}

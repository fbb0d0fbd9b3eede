// The numbers that are drawn, one after another.
ghost use Rattle.std.specs.Prelude.{◌≡◌, ◌<◌};
ghost use Rattle.halo_sample.specs.Generator.{drawn, next_state};

use std::marker::Model;

/// What a state is multiplied by to make the next one.
pub const MULTIPLIER: u64 = 6_364_136_223_846_793_005;

/// What is added to the product.
pub const INCREMENT: u64 = 1_442_695_040_888_963_407;

/// A state from which numbers are drawn.
#[derive(Drop)]
pub struct Generator {
    state: u64,
}

impl Model for Generator {
    ghost use Rattle.std.specs.Prelude.{ℕ};

    ghost Value = { ℕ };

    ghost view = { λ g. g.state };
}

impl Generator {
    /// The generator that begins in this state.
    pub fn new(state: u64) -> Generator
        ensures { result ≡ state }
    {
        Generator { state }
    }

    /// Steps the state, and draws a number below this one from the new state.
    #[tactic(auto, unfolding(crate::specs::Generator::drawn))]
    pub fn draw(&mut self, below: u64) -> u64
        requires { 0 < below }
        ensures number { result ≡ drawn below self.old }
        ensures below { result < below }
        ensures state { self.new ≡ next_state self.old }
    {
        self.state = next_state(self.state);
        (self.state >> 33) % below
    }
}

// The state behind a state.
fn next_state(state: u64) -> u64
    ensures { result ≡ next_state state }
{
    MULTIPLIER.wrapping_mul(state).wrapping_add(INCREMENT)
}

//! The random numbers of a drill.
ghost use Rattle.std.specs.Prelude.{◌≡◌};
ghost use Rattle.desk_drill.specs.Draws.{drawn, next_draw};

const FACTOR: u64 = 6_364_136_223_846_793_005;

const STEP: u64 = 1_442_695_040_888_963_407;

/// A linear congruential generator of numbers of 31 bits (docs/DEFINITIONS.md, "desk_drill").
#[derive(Clone, Copy, Debug)]
pub struct Draws {
    pub state: u64,
}

impl Draws {
    /// Returns the next random number, below 2^31, and advances the generator.
    pub fn draw(&mut self) -> u64
        ensures state { self.new.state ≡ next_draw self.old.state }
        ensures value { result ≡ drawn self.new.state }
    {
        self.state = self.state.wrapping_mul(FACTOR).wrapping_add(STEP);
        self.state >> 33
    }
}

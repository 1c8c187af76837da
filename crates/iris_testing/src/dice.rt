//! Choices from a fixed seed.

ghost use Rattle.std.specs.Prelude.{◌≤◌, ◌<◌};

#[derive(Drop)]
pub struct Dice {
    state: u64,
}

impl Dice {
    pub fn of(seed: u64) -> Dice {
        Dice { state: seed }
    }

    /// A number below this one.
    pub fn roll(&mut self, below: u32) -> u32
        requires { 1 ≤ below }
        ensures { result < below }
    {
        self.state = self
            .state
            .wrapping_mul(6_364_136_223_846_793_005)
            .wrapping_add(1_442_695_040_888_963_407);
        (self.state >> 33) as u32 % below
    }
}

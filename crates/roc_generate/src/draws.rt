//! Numbers drawn one after the other.
ghost use Rattle.std.specs.Prelude.{◌≡◌, ◌<◌};
ghost use Rattle.roc_generate.specs.Draws.{next_state, draw};

/// A linear congruential generator. Its high bits are what it gives, since the low ones repeat soon.
#[derive(Drop)]
pub(crate) struct Draws {
    pub(crate) state: u64,
}

impl Draws {
    /// A number below this one.
    pub(crate) fn draw(&mut self, below: u64) -> u64
        requires { 0 < below }
        ensures value { result ≡ draw self.old.state below }
        ensures state { self.new.state ≡ next_state self.old.state }
        ensures below { result < below }
    {
        self.state = self
            .state
            .wrapping_mul(6_364_136_223_846_793_005)
            .wrapping_add(1_442_695_040_888_963_407);
        (self.state >> 33) % below
    }
}

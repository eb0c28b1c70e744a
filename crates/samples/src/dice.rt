// A fixed generator of numbers.
ghost use Rattle.std.specs.Prelude.{◌≡◌};
ghost use Rattle.samples.specs.Rolls.{after, shown};

#[derive(Clone, Copy)]
pub struct Dice {
    pub state: u64,
}

impl Dice {
    // The next number: the high half of the next state.
    pub fn roll(&mut self) -> u32
        ensures next_state { self.new.state ≡ after self.old.state }
        ensures high_half { result ≡ shown self.new.state }
    {
        self.state = self
            .state
            .wrapping_mul(6_364_136_223_846_793_005)
            .wrapping_add(1_442_695_040_888_963_407);
        (self.state >> 32) as u32
    }
}

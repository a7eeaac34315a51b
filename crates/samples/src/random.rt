// A source of numbers that look random and are the same in every run.
ghost use Rattle.std.specs.Prelude.{◌≡◌};
ghost use Rattle.samples.specs.Samples.{drawn, next};

// A linear congruential generator modulo 2^64.
#[derive(Clone, Copy)]
pub struct Random {
    pub state: u64,
}

impl Random {
    // The next number below a bound.
    pub fn below(&mut self, bound: u64) -> u64
        ensures state { self.new.state ≡ next self.old.state }
        ensures value { result ≡ drawn self.new.state bound }
    {
        self.state = self
            .state
            .wrapping_mul(6_364_136_223_846_793_005)
            .wrapping_add(1_442_695_040_888_963_407);
        // the upper bits are the more random ones
        self.state / 8_589_934_592 % bound.max(1)
    }
}

//! Numbers that are the same on every machine: the high bits of a linear congruential generator's state.

use std::marker::Model;

/// The generator. Contracts see its state.
#[derive(Clone, Copy)]
pub(crate) struct Draws {
    state: u64,
}

impl Model for Draws {
    ghost use Rattle.std.specs.Prelude.{ℕ};

    ghost Value = { ℕ };

    ghost view = { λ d. d.state };

    ghost inverse = { λ n. record { state = n } };
}

ghost use Rattle.std.specs.Prelude.{◌≡◌, ◌<◌, ◌%◌};
ghost use Rattle.trade_file.specs.Generated.{next_state, drawn};

impl Draws {
    /// The generator that starts from this number.
    pub(crate) fn from_number(number: u64) -> Draws
        ensures { result ≡ number }
    {
        Draws { state: number }
    }

    /// Draws a number below 2^31.
    fn draw(&mut self) -> u64
        ensures state { self.new ≡ next_state self.old }
        ensures value { result ≡ drawn self.new }
    {
        self.state = self
            .state
            .wrapping_mul(6_364_136_223_846_793_005)
            .wrapping_add(1_442_695_040_888_963_407);
        self.state >> 33
    }

    /// Draws a number below a limit.
    pub(crate) fn draw_below(&mut self, limit: u64) -> u64
        requires { 0 < limit }
        ensures state { self.new ≡ next_state self.old }
        ensures value { result ≡ drawn self.new % limit }
        ensures below { result < limit }
    {
        self.draw() % limit
    }
}

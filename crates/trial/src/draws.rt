// The numbers that a trial draws.
ghost use Rattle.std.specs.Prelude.{◌≡◌, ◌<◌, ◌^◌};
ghost use Rattle.trial.specs.Records.{next, drawn};

use std::marker::Model;

/// The factor by which each draw multiplies the state.
pub const MULTIPLIER: u64 = 6_364_136_223_846_793_005;

/// The number that each draw then adds to the state.
pub const INCREMENT: u64 = 1_442_695_040_888_963_407;

/// The number of low bits of the new state that aren't part of the number drawn.
pub const DROPPED_BITS: u32 = 33;

/// A linear congruential generator of numbers, modulo `2 ^ 64`.
///
/// In a contract, it is its state.
#[derive(Drop)]
pub struct Draws {
    state: u64,
}

impl Model for Draws {
    ghost use Rattle.std.specs.Prelude.{ℕ};

    ghost Value = { ℕ };

    ghost view = { λ d. d.state };
}

impl Draws {
    /// Makes a generator that starts from this number.
    pub fn new(number: u32) -> Draws
        ensures { result ≡ number }
    {
        Draws {
            state: u64::from(number),
        }
    }

    /// Returns the next number.
    pub fn next(&mut self) -> u32
        ensures number { result ≡ drawn self.old }
        ensures state { self.new ≡ next self.old }
    {
        self.state = self.state.wrapping_mul(MULTIPLIER).wrapping_add(INCREMENT);
        (self.state >> DROPPED_BITS) as u32
    }
}

// Factors below one.
ghost use Rattle.std.specs.Prelude.{◌≡◌, ◌*◌, ◌/◌, ◌<◌, ◌≤◌, ◌^◌};

use crate::limits::ONE;

// A factor is kept in units of 2^-64, so that the division by 2^64 is free.
const UNITS: u128 = 18_446_744_073_709_551_616;

/// A factor below one, as a fraction.
#[derive(Clone, Copy)]
pub struct Falling {
    /// The numerator.
    pub over: u64,
    /// The denominator.
    pub under: u64,
    /// The factor in units, rounded down.
    pub scaled: u64,
    ghost below_one: { over < under },
    ghost few: { under < 2 ^ 63 },
    ghost rounded: { scaled ≡ over * 2 ^ 64 / under },
}

impl Falling {
    ghost use Rattle.km_risk.specs.Printed.{divided_up};

    /// The factor `over / under`.
    pub fn new(over: u64, under: u64) -> Falling
        requires below_one { over < under }
        requires few { under < 2 ^ 63 }
        ensures over { result.over ≡ over }
        ensures under { result.under ≡ under }
    {
        let scaled = u128::from(over) * UNITS / u128::from(under);
        Falling {
            over,
            under,
            scaled: scaled as u64,
        }
    }

    /// The risk times the factor, rounded up.
    ///
    /// The product with the factor in units is at most one below the quotient, and the remainder corrects it. A product takes a fraction of
    /// the time of a division.
    pub fn times(self, risk: u64) -> u64
        requires { risk ≤ ONE }
        ensures value { result ≡ divided_up (risk * self.over) self.under }
        ensures at_most { result ≤ risk }
    {
        let wide = u128::from(risk);
        let quotient = wide * u128::from(self.scaled) / UNITS;
        let rest = (wide * u128::from(self.over) - quotient * u128::from(self.under)) as u64;
        quotient as u64 + u64::from(rest > 0) + u64::from(rest > self.under)
    }
}

// What the factors of the draws depend on, and the steps of the chain.
ghost use Rattle.std.specs.Prelude.{◌≡◌, ◌≤◌, fold, replicate};
ghost use Rattle.km_risk.specs.Factor.{IsSetting};

use crate::falling::Falling;
use crate::limits::ONE;

// A draw with this discrepancy or a larger one has a factor below one.
const CLEAN: u8 = 2;

/// The cards of the manifest, the margin of the assertion in votes, and gamma in thousandths.
#[derive(Clone, Copy)]
pub struct Setting {
    /// The number of cards in the manifest.
    pub cards: u32,
    /// The margin of the assertion, in votes.
    pub margin: u32,
    /// Gamma, in thousandths.
    pub gamma: u32,
    ghost within_limits: { IsSetting cards margin gamma },
}

impl Setting {
    ghost use Rattle.km_risk.specs.Factor.{denominator, numerator};
    ghost use Rattle.km_risk.specs.Printed.{step};

    /// The risk after one more draw with the discrepancy `d`.
    pub fn after_draw(self, risk: u64, d: u8) -> u64
        requires { risk ≤ ONE }
        ensures value { result ≡ step self.cards self.margin self.gamma risk d }
        ensures at_most_one { result ≤ ONE }
    {
        let cards = u64::from(self.cards);
        let threshold = 2 * cards - u64::from(self.margin);
        let gamma = u64::from(self.gamma);
        let numerator = u128::from((500 + gamma) * threshold);
        let denominator = u128::from(500 * u64::from(d) * cards + gamma * threshold);
        let scaled = (u128::from(risk) * numerator + denominator - 1) / denominator;
        // Only a step with d of 0 or 1 can go above one.
        scaled.min(u128::from(ONE)) as u64
    }

    // The factor of a draw with a discrepancy of 2 or more.
    fn factor(self, d: u8) -> Falling
        requires { CLEAN ≤ d }
        ensures over { result.over ≡ numerator self.cards self.margin self.gamma }
        ensures under { result.under ≡ denominator self.cards self.margin self.gamma d }
    {
        let cards = u64::from(self.cards);
        let threshold = 2 * cards - u64::from(self.margin);
        let gamma = u64::from(self.gamma);
        Falling::new(
            (500 + gamma) * threshold,
            500 * u64::from(d) * cards + gamma * threshold,
        )
    }

    // The risk after a number of draws that don't lower it.
    fn after_overstated(self, risk: u64, number: u32, d: u8) -> u64
        requires { risk ≤ ONE }
        ensures value { result
            ≡ fold (step self.cards self.margin self.gamma) risk (replicate number d) }
        ensures at_most_one { result ≤ ONE }
    {
        let mut now = risk;
        for _ in 0..number {
            let next = self.after_draw(now, d);
            if next == now {
                return now;
            }
            now = next;
        }
        now
    }

    /// The risk after a number of draws with the discrepancy `d`. Once a draw leaves the risk as it is, so do all later ones.
    pub fn after_draws(self, risk: u64, number: u32, d: u8) -> u64
        requires { risk ≤ ONE }
        ensures value { result
            ≡ fold (step self.cards self.margin self.gamma) risk (replicate number d) }
        ensures at_most_one { result ≤ ONE }
    {
        if d < CLEAN {
            return self.after_overstated(risk, number, d);
        }
        let factor = self.factor(d);
        let mut now = risk;
        for _ in 0..number {
            let next = factor.times(now);
            if next == now {
                return now;
            }
            now = next;
        }
        now
    }
}

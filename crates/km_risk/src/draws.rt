// The risk of numbers of draws.
ghost use Rattle.std.specs.Prelude.{◌≡◌, ◌≤◌, ◌*◌, nat_le};
ghost use Rattle.km_risk.specs.Factor.{IsSetting};
ghost use Rattle.irv_base.specs.declared.limits.TheConstants.{GREATEST_LIMIT, MOST_DRAWS};
ghost use Rattle.km_risk.specs.declared.limits.TheConstants.{MILLIONTH};
ghost use Rattle.km_risk.specs.Counts.{draws_in, in_order};
ghost use Rattle.km_risk.specs.Printed.{printed_risk};
ghost use Rattle.km_risk.specs.Bounds.{IsNotBelow, IsNotFarAbove};

use crate::limits::{MILLIONTH, ONE};
use crate::setting::Setting;

/// The number of draws that have each discrepancy d, from 0 to 4. Without a discrepancy, d is 2.
#[derive(Clone, Copy, Debug, Default, PartialEq, Eq)]
pub struct Counts {
    /// Draws that support the assertion by two votes less than recorded.
    pub n0: u32,
    /// Draws that support it by one vote less.
    pub n1: u32,
    /// Clean draws, which are seen as recorded as far as the assertion is concerned.
    pub n2: u32,
    /// Draws that support it by one vote more.
    pub n3: u32,
    /// Draws that support it by two votes more.
    pub n4: u32,
}

/// The printed risk of the draws, in units of 10^-18, for a manifest of `cards` cards, an assertion with a margin of `margin` votes, and
/// `gamma` thousandths.
///
/// The draws with d of 4 are taken first, then those with d of 3, 2, 1 and 0. Each step is rounded up.
pub fn risk(counts: &Counts, cards: u32, margin: u32, gamma: u32) -> u64
    requires draws { draws_in counts.now ≤ MOST_DRAWS }
    requires setting { IsSetting cards margin gamma }
    ensures value { result ≡ printed_risk cards margin gamma counts.now }
    ensures at_most_one { result ≤ ONE }
    ensures not_below { IsNotBelow cards margin gamma (in_order counts.now) result }
    ensures not_far_above { IsNotFarAbove cards margin gamma (in_order counts.now) result }
{
    let setting = Setting {
        cards,
        margin,
        gamma,
    };
    let after4 = setting.after_draws(ONE, counts.n4, 4);
    let after3 = setting.after_draws(after4, counts.n3, 3);
    let after2 = setting.after_draws(after3, counts.n2, 2);
    let after1 = setting.after_draws(after2, counts.n1, 1);
    setting.after_draws(after1, counts.n0, 0)
}

/// Whether a risk is at most `limit` millionths.
pub fn is_confirmed(risk: u64, limit: u32) -> bool
    requires { limit ≤ GREATEST_LIMIT }
    ensures { result ≡ nat_le risk (limit * MILLIONTH) }
{
    risk <= u64::from(limit) * MILLIONTH
}

// The risk of draws in the order they come.
ghost use Rattle.std.specs.Prelude.{◌≡◌, ◌≤◌, ◌*◌, nat_le};
ghost use Rattle.irv_base.specs.declared.limits.TheConstants.{GREATEST_LIMIT};
ghost use Rattle.km_risk.specs.declared.limits.TheConstants.{MILLIONTH};
ghost use Rattle.km_risk.specs.AsDrawn.{IsEachSetting, next_risk};

use crate::limits::{CEILING, MILLIONTH};

/// The printed risk after one more draw with the discrepancy `d`, in units of 10^-18. It is computed from the risk before that draw, for a
/// manifest of `cards` cards, an assertion with a margin of `margin` votes, and `gamma` thousandths. Without draws the risk is `ONE`.
///
/// The step is rounded up. A risk above `CEILING` stays as it is.
pub fn next_risk(risk: u128, d: u8, cards: u32, margin: u32, gamma: u32) -> u128
    requires setting { IsEachSetting cards margin gamma }
    requires discrepancy { d ≤ 4 }
    ensures { result ≡ next_risk cards margin gamma risk d }
{
    if risk > CEILING {
        return risk;
    }
    let cards = u64::from(cards);
    let threshold = 2 * cards - u64::from(margin);
    let gamma = u64::from(gamma);
    let numerator = u128::from((500 + gamma) * threshold);
    let denominator = u128::from(500 * u64::from(d) * cards + gamma * threshold);
    (risk * numerator + denominator - 1) / denominator
}

/// Whether such a risk is at most `limit` millionths.
pub fn is_within(risk: u128, limit: u32) -> bool
    requires { limit ≤ GREATEST_LIMIT }
    ensures { result ≡ nat_le risk (limit * MILLIONTH) }
{
    risk <= u128::from(u64::from(limit) * MILLIONTH)
}

// Bounds on the risk of clean draws.
ghost use Rattle.std.specs.Prelude.{◌≡◌, ◌+◌, ◌*◌, ◌<◌, ◌≤◌, ◌^◌};
ghost use Rattle.std.specs.Bool.{OnTrue};
ghost use Rattle.irv_base.specs.declared.limits.TheConstants.{GREATEST_LIMIT, MOST_DRAWS};
ghost use Rattle.km_risk.specs.declared.limits.TheConstants.{MILLIONTH};
ghost use Rattle.km_risk.specs.Around.{AreAround};
ghost use Rattle.km_risk.specs.Counts.{clean};
ghost use Rattle.km_risk.specs.Printed.{printed_risk};

use crate::limits::{MILLIONTH, ONE};
use crate::setting::Setting;

/// Bounds are in units of a `SCALE`-th. This is a power of two, so that a division by it is a shift.
pub const SCALE: u64 = 1_152_921_504_606_846_976;

/// A number of clean draws, and bounds on their exact risk.
#[derive(Clone, Copy)]
pub struct Bounds {
    /// The number of clean draws.
    pub draws: u32,
    /// A lower bound on their risk, in units of a `SCALE`-th.
    pub least: u64,
    /// An upper bound on their risk, in the same units.
    pub most: u64,
}

/// No draws, and bounds on their risk, which is one.
pub fn no_draws(setting: Setting) -> Bounds
    ensures around { AreAround setting result }
    ensures none { result.draws ≡ 0 }
{
    prove!(setting.margin <= setting.cards);
    Bounds {
        draws: 0,
        least: SCALE,
        most: SCALE,
    }
}

/// One clean draw, and the bounds on its risk.
pub fn one_draw(setting: Setting) -> Bounds
    ensures around { AreAround setting result }
    ensures one { result.draws ≡ 1 }
{
    let cards = u64::from(setting.cards);
    let threshold = 2 * cards - u64::from(setting.margin);
    let gamma = u64::from(setting.gamma);
    let numerator = u128::from((500 + gamma) * threshold);
    let denominator = u128::from(1000 * cards + gamma * threshold);
    let scaled = u128::from(SCALE) * numerator;
    Bounds {
        draws: 1,
        least: (scaled / denominator) as u64,
        most: ((scaled + denominator - 1) / denominator) as u64,
    }
}

impl Bounds {
    /// These draws and the other draws, taken together.
    pub fn joined(self, setting: Setting, other: Bounds) -> Bounds
        requires few { self.draws + other.draws < 2 ^ 32 }
        requires around { AreAround setting self }
        requires other { AreAround setting other }
        ensures around { AreAround setting result }
        ensures draws { result.draws ≡ self.draws + other.draws }
    {
        prove!(setting.margin <= setting.cards);
        let scale = u128::from(SCALE);
        let least = u128::from(self.least) * u128::from(other.least) / scale;
        let most = (u128::from(self.most) * u128::from(other.most) + scale - 1) / scale;
        Bounds {
            draws: self.draws + other.draws,
            least: least as u64,
            most: most as u64,
        }
    }

    /// Whether the printed risk of the draws is certainly above the limit.
    pub fn is_above(self, setting: Setting, limit: u32) -> bool
        requires limit { limit ≤ GREATEST_LIMIT }
        requires around { AreAround setting self }
        ensures { OnTrue result
            (limit * MILLIONTH < printed_risk setting.cards setting.margin setting.gamma
            (clean self.draws)) }
    {
        prove!(setting.margin <= setting.cards);
        let allowed = u128::from(u64::from(limit) * MILLIONTH);
        allowed * u128::from(SCALE) < u128::from(self.least) * u128::from(ONE)
    }

    /// Whether the printed risk of the draws is certainly within the limit.
    pub fn is_within(self, setting: Setting, limit: u32) -> bool
        requires limit { limit ≤ GREATEST_LIMIT }
        requires around { AreAround setting self }
        ensures { OnTrue result
            (printed_risk setting.cards setting.margin setting.gamma
            (clean self.draws) ≤ limit * MILLIONTH) }
    {
        prove!(setting.margin <= setting.cards);
        let allowed = u128::from(u64::from(limit) * MILLIONTH);
        let scale = u128::from(SCALE);
        u128::from(self.most) * u128::from(ONE) + u128::from(self.draws) * scale <= allowed * scale
    }
}

/// Draws whose risk is surely above the limit: as many as steps of this many draws find, after steps of twice as many, of four times as
/// many, and so on, the largest first.
pub fn climb(setting: Setting, limit: u32, most: u32, step: Bounds) -> Bounds
    requires limit { limit ≤ GREATEST_LIMIT }
    requires some { 1 ≤ step.draws }
    requires few { most ≤ MOST_DRAWS }
    requires around { AreAround setting step }
    ensures within { result.draws ≤ most }
    ensures above { limit * MILLIONTH < printed_risk setting.cards setting.margin setting.gamma
        (clean result.draws) }
    ensures around { AreAround setting result }
{
    if step.draws > most {
        return no_draws(setting);
    }
    let found = climb(setting, limit, most, step.joined(setting, step));
    if found.draws + step.draws > most {
        return found;
    }
    let next = found.joined(setting, step);
    if next.is_above(setting, limit) {
        return next;
    }
    found
}

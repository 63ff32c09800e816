// The clean draws that a limit needs.
ghost use Rattle.std.specs.Prelude.{◌≡◌, ◌≤◌};
ghost use Rattle.km_risk.specs.Factor.{IsSetting};
ghost use Rattle.irv_base.specs.declared.limits.TheConstants.{GREATEST_LIMIT};
ghost use Rattle.km_risk.specs.Clean.{clean_draws};

use crate::bounds::{climb, no_draws, one_draw};
use crate::draws::is_confirmed;
use crate::limits::ONE;
use crate::setting::Setting;
use irv_base::MOST_DRAWS;

// Goes draw by draw: the first number of draws whose risk is at most the limit.
fn first_within(setting: Setting, limit: u32) -> Option<u32>
    requires { limit ≤ GREATEST_LIMIT }
    ensures { result ≡ clean_draws setting.cards setting.margin setting.gamma limit }
{
    let mut now = ONE;
    for n in 0..=setting.cards.min(MOST_DRAWS) {
        if is_confirmed(now, limit) {
            return Some(n);
        }
        now = setting.after_draw(now, 2);
    }
    None
}

/// The smallest number of draws without a discrepancy, and no others, whose printed risk is at most `limit` millionths, for a manifest of
/// `cards` cards, an assertion with a margin of `margin` votes, and `gamma` thousandths.
///
/// The result is `None` exactly if more draws than there are cards, or more than `MOST_DRAWS`, are needed.
///
/// Bounds on the risk usually give the number in about as many steps as it has binary digits. If they leave any doubt, each draw is a step.
pub fn clean_draws(cards: u32, margin: u32, gamma: u32, limit: u32) -> Option<u32>
    requires setting { IsSetting cards margin gamma }
    requires limit { (1 ≤ limit) × (limit ≤ GREATEST_LIMIT) }
    ensures { result ≡ clean_draws cards margin gamma limit }
{
    let setting = Setting {
        cards,
        margin,
        gamma,
    };
    let most = cards.min(MOST_DRAWS);
    let one = one_draw(setting);
    let last = climb(setting, limit, most, one);
    if last.draws == most {
        return None;
    }
    let next = last.joined(setting, one);
    if next.is_within(setting, limit) {
        return Some(next.draws);
    }
    first_within(setting, limit)
}

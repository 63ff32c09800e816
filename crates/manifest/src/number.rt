// The number of a card in its batch.
ghost use Rattle.std.specs.Prelude.{◌≡◌, ◌≤◌, ℕ, false, decimal, IfSome, IfNone};
ghost use Rattle.irv_base.specs.Names.{is_same};
ghost use Rattle.manifest.specs.declared.limits.TheConstants.{MOST_BATCH_CARDS};

use crate::limits::MOST_BATCH_CARDS;
use csv_rows::number_of;

/// The number of a card that is written this way, without leading zeros.
pub fn card_number(text: &[u8]) -> Option<u32>
    ensures written { IfSome result (λ k. decimal k ≡ text.now) }
    ensures first { IfSome result (λ k. 1 ≤ k) }
    ensures most { IfSome result (λ k. k ≤ MOST_BATCH_CARDS) }
    ensures none { IfNone result
        ((k : ℕ) → 1 ≤ k → k ≤ MOST_BATCH_CARDS → is_same (decimal k) text.now ≡ false) }
{
    if text.is_empty() {
        return None;
    }
    if text[0] == b'0' {
        return None;
    }
    let Some(k) = number_of(text) else {
        return None;
    };
    if k > u64::from(MOST_BATCH_CARDS) {
        return None;
    }
    Some(k as u32)
}

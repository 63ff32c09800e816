// The smallest margin that the assertions may have.
ghost use Rattle.std.specs.Prelude.{◌≡◌};
ghost use Rattle.fewest_search.specs.Gap.{least_margin};

/// Returns the best margin less `gap` thousandths of it, rounded up, and at least one vote.
pub(crate) fn least_margin(best: u32, gap: u32) -> u32
    ensures { result ≡ least_margin gap best }
{
    let kept = 1000_u32.saturating_sub(gap);
    let votes = (u64::from(best) * u64::from(kept)).div_ceil(1000);
    votes.max(1) as u32
}

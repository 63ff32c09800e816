// Entries side by side: the number of ballots on which a candidate has nobody of a set before it.
ghost use Rattle.std.specs.Prelude.{◌≡◌, ◌≤◌, ◌*◌, length, take, if◌then◌else◌};
ghost use Rattle.std.specs.Simd.Lanes.{zip2};
ghost use Rattle.irv_base.specs.declared.limits.TheConstants.{MOST_RECORDS};
ghost use Rattle.set_tallies.specs.Bags.{misses, missing, total};
ghost use Rattle.set_tallies.specs.Listings.{paired};

use std::simd::prelude::*;

/// The number of entries that are processed at once.
pub const LANES: usize = 8;

// The numbers of those entries that have nobody of the set, and 0 for the others.
#[inline(always)]
fn counts_missing(sets: u32x8, counts: u32x8, set: u32) -> u32x8
    requires { (length sets ≡ LANES) × (length counts ≡ LANES) }
    ensures { result ≡ zip2 (λ before count. if misses set before then count else 0) sets counts }
{
    (sets & u32x8::splat(set))
        .simd_eq(u32x8::splat(0))
        .select(counts, u32x8::splat(0))
}

// The number of ballots of the first `blocks * LANES` entries on which nobody of the set comes before the candidate.
#[inline(always)]
fn missing_in_blocks(sets: &[u32], counts: &[u32], set: u32, blocks: usize) -> u32
    requires same { length counts.now ≡ length sets.now }
    requires within { blocks * LANES ≤ length sets.now }
    requires most { total (paired sets.now counts.now) ≤ MOST_RECORDS }
    ensures { result ≡ missing set (take (blocks * LANES) (paired sets.now counts.now)) }
{
    let mut votes = u32x8::splat(0);
    for block in 0..blocks {
        let at = block * LANES;
        votes = votes.strict_add(counts_missing(
            u32x8::from_slice(&sets[at..]),
            u32x8::from_slice(&counts[at..]),
            set,
        ));
    }
    votes.strict_reduce_sum()
}

/// The number of ballots of the entries with these sets and numbers on which nobody of the set comes before the candidate.
pub fn missing(sets: &[u32], counts: &[u32], set: u32) -> u32
    requires same { length counts.now ≡ length sets.now }
    requires most { total (paired sets.now counts.now) ≤ MOST_RECORDS }
    ensures { result ≡ missing set (paired sets.now counts.now) }
{
    let blocks = sets.len() / LANES;
    let mut votes = missing_in_blocks(sets, counts, set, blocks);
    for i in blocks * LANES..sets.len() {
        if sets[i] & set == 0 {
            votes += counts[i];
        }
    }
    votes
}

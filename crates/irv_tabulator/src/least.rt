// Who has the smallest tally among the remaining candidates.
ghost use Rattle.std.specs.Prelude.{◌≡◌, ◌≢◌, ℕ, ◌<◌, ◌≤◌, true, length, slice_index};
ghost use Rattle.irv_base.specs.declared.limits.TheConstants.{ROOM};
ghost use Rattle.irv_base.specs.Candidates.{has, members, set_of};
ghost use Rattle.irv_tabulator.specs.Rounds.{sharing};
ghost use Rattle.irv_base.specs.Tabulation.{goes_before};

use irv_base::{CandSet, Candidate};

/// The candidate's number in the row of tallies.
pub fn votes(row: &[u32], c: Candidate) -> u32
    requires { c < length row.now }
    ensures { result ≡ slice_index row.now c }
{
    row[c.index()]
}

/// The candidate with the smallest number of those with the smallest tally.
pub fn lowest(row: &[u32], remaining: CandSet) -> Candidate
    requires some { 0 < length (members remaining) }
    requires within { (c : ℕ) → has remaining c ≡ true → c < length row.now }
    requires room { length row.now ≤ ROOM }
    ensures remains { has remaining result ≡ true }
    ensures first { (c : ℕ) → has remaining c ≡ true → c ≢ result
        → goes_before (slice_index row.now) result c ≡ true }
{
    let mut lowest = remaining.nth(0);
    for i in 1..remaining.len() {
        let c = remaining.nth(i);
        if votes(row, c) < votes(row, lowest) {
            lowest = c;
        }
    }
    lowest
}

/// The remaining candidates with this tally.
pub fn sharing(row: &[u32], remaining: CandSet, tally: u32) -> CandSet
    requires { (c : ℕ) → has remaining c ≡ true → c < length row.now }
    ensures { result ≡ set_of (sharing row.now remaining tally) }
{
    let mut shared = CandSet::empty();
    for i in 0..remaining.len() {
        let c = remaining.nth(i);
        if votes(row, c) == tally {
            shared = shared.with(c);
        }
    }
    shared
}

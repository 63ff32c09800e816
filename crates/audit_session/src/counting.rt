// The counts of claims over drawn cards.
ghost use Rattle.std.specs.Prelude.{ℕ, ◌≡◌, ◌+◌, ◌<◌, ◌≤◌, ◌^◌, ◌∷◌, ◌++◌, [], All, List, length, IfOk};
ghost use Rattle.km_risk.specs.Counts.{counts_of, draws_in};
ghost use Rattle.audit_session.specs.declared.compared.Drawn.{Drawn};
ghost use Rattle.audit_session.specs.Going.{all_counts, compared, counts_over, value_at};

use crate::alike::odd_among;
use crate::claims::Claims;
use crate::compared::Drawn;
use assorters::Assorter;
use irv_base::{Memory, Ranking};
use km_risk::Counts;
use std::alloc::Global;

// The discrepancy of a drawn card for the claim with this index.
fn discrepancy<T: Claims>(claims: &T, j: u64, drawn: &Drawn) -> u8
    requires { j < length (T.values claims.now) }
    ensures value { result ≡ compared (value_at (T.values claims.now) j) drawn.now }
    ensures most { result ≤ 4 }
{
    let assorter = Assorter::new(|r: &Ranking| claims.value(j, r));
    assorter.overstated(&drawn.recorded, &drawn.seen)
}

// The counts with one more draw of this discrepancy.
fn counted(counts: Counts, d: u8) -> Counts
    requires few { draws_in counts < 2 ^ 31 }
    requires d { d ≤ 4 }
    ensures counts { (ds : List ℕ) → counts ≡ counts_of ds
        → result ≡ counts_of (ds ++ d ∷ []) }
    ensures draws { draws_in result ≡ draws_in counts + 1 }
{
    Counts {
        n0: counts.n0 + u32::from(d == 0),
        n1: counts.n1 + u32::from(d == 1),
        n2: counts.n2 + u32::from(d == 2),
        n3: counts.n3 + u32::from(d == 3),
        n4: counts.n4 + u32::from(d == 4),
    }
}

// The counts with this many more draws that are seen as recorded.
fn with_alike(counts: Counts, alike: usize) -> Counts
    requires { draws_in counts + alike < 2 ^ 31 }
    ensures { result ≡ record counts { n2 = counts.n2 + alike } }
{
    Counts {
        n2: counts.n2 + alike as u32,
        ..counts
    }
}

// The counts of the claim with this index, with these draws after those that were counted before.
fn counts_over<T: Claims>(before: Counts, claims: &T, j: u64, drawn: &[Drawn]) -> Counts
    requires claim { j < length (T.values claims.now) }
    requires few { draws_in before + length drawn.now < 2 ^ 31 }
    ensures counts { (earlier : List Drawn)
        → before ≡ counts_over (value_at (T.values claims.now) j) earlier
        → result ≡ counts_over (value_at (T.values claims.now) j) (earlier ++ drawn.now) }
    ensures draws { draws_in result ≡ draws_in before + length drawn.now }
{
    let mut counts = before;
    for i in 0..drawn.len() {
        counts = counted(counts, discrepancy(claims, j, &drawn[i]));
    }
    counts
}

/// Returns the counts of each claim, with these draws after those that were counted before. Cards that are seen as recorded are counted
/// once for all claims; only the other cards are counted for each claim.
pub fn all_counts<T: Claims>(
    alloc: Global,
    claims: &T,
    before: &[Counts],
    drawn: &[Drawn],
) -> Result<Vec<Counts>, Memory>
    requires each { length before.now ≡ length (T.values claims.now) }
    requires few { All (λ counts. draws_in counts + length drawn.now < 2 ^ 31) before.now }
    ensures { IfOk result (λ all. (earlier : List Drawn)
        → before.now ≡ all_counts (T.values claims.now) earlier
        → all.items ≡ all_counts (T.values claims.now) (earlier ++ drawn.now)) }
{
    // Calls this for what its contract says: the values of the claims are 0, 1 and 2.
    let _count = claims.count();
    let odd = odd_among(alloc, drawn)?;
    let alike = drawn.len() - odd.len();
    let mut all = Vec::new(alloc);
    for j in 0..before.len() {
        let clean = with_alike(before[j], alike);
        all.push(counts_over(clean, claims, j as u64, &odd))?;
    }
    Ok(all)
}

/// Returns the counts of no draws for each claim.
pub fn none_counted<T: Claims>(alloc: Global, claims: &T) -> Result<Vec<Counts>, Memory>
    ensures { IfOk result (λ counts. counts.items ≡ all_counts (T.values claims.now) []) }
{
    let mut counts = Vec::new(alloc);
    for _ in 0..claims.count() {
        counts.push(Counts::default())?;
    }
    Ok(counts)
}

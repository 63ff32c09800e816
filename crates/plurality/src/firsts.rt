// First preferences, and who has the most of them.
ghost use Rattle.std.specs.Prelude.{◌≡◌, ℕ, ◌+◌, ◌==◌, ◌<◌, ◌≤◌, All, IfOk, IsTrue, filter, fold, if◌then◌else◌, length, map, max, slice_index};
ghost use Rattle.irv_base.specs.Candidates.{all_but, candidates, is_distinct, set_of};
ghost use Rattle.irv_base.specs.Records.{is_first};
ghost use Rattle.irv_base.specs.declared.limits.TheConstants.{MOST_RECORDS, ROOM};
ghost use Rattle.plurality.specs.Plurality.{first_preferences};

use irv_base::{CandSet, Candidate, Memory, Rankings};
use std::alloc::Global;

// Counts a ranking for the candidate it ranks first.
fn count_first(firsts: &mut [u32], ranking: &[Candidate])
    requires below { All (λ c. c < length firsts.old) ranking.now }
    requires fit { All (λ number. number < MOST_RECORDS) firsts.old }
    ensures long { length firsts.new ≡ length firsts.old }
    ensures more { (c : ℕ) → slice_index firsts.new c
        ≡ slice_index firsts.old c + (if is_first ranking.now c then 1 else 0) }
{
    if let Some(first) = ranking.first() {
        firsts[first.index()] += 1;
    }
}

/// For each of n candidates, the number of these rankings that rank the candidate first.
pub fn first_preferences(alloc: Global, n: u32, rankings: &Rankings) -> Result<Vec<u32>, Memory>
    requires most { length rankings.now ≤ MOST_RECORDS }
    requires below { All (λ ranking. All (λ c. c < n) ranking) rankings.now }
    ensures { IfOk result (λ firsts. firsts.items
        ≡ map (first_preferences rankings.now) (candidates n)) }
{
    let mut firsts = vec![in alloc; 0; n as usize]?;
    for i in 0..rankings.len() {
        count_first(&mut firsts, rankings.at(i));
    }
    Ok(firsts)
}

/// The greatest of the numbers.
pub fn greatest(numbers: &[u32]) -> u32
    ensures { result ≡ fold max 0 numbers.now }
{
    let mut greatest = 0;
    for number in numbers {
        greatest = greatest.max(*number);
    }
    greatest
}

/// The candidates for whom `numbers` has this number, in the order of the candidates' own numbers.
pub fn with_number(alloc: Global, numbers: &[u32], number: u32) -> Result<Vec<Candidate>, Memory>
    requires { length numbers.now ≤ ROOM }
    ensures { IfOk result (λ those. those.items
        ≡ filter (λ c. slice_index numbers.now c == number) (candidates (length numbers.now))) }
{
    let mut those = Vec::new(alloc);
    for c in 0..numbers.len() {
        if numbers[c] == number {
            those.push(Candidate(c as u8))?;
        }
    }
    Ok(those)
}

/// The n candidates except one, in the order of their numbers.
pub fn all_but(alloc: Global, n: u32, one: Candidate) -> Result<Vec<Candidate>, Memory>
    requires { n ≤ ROOM }
    ensures { IfOk result (λ others. others.items ≡ all_but n one) }
{
    let mut others = Vec::new(alloc);
    for i in 0..n {
        let c = Candidate(i as u8);
        if c != one {
            others.push(c)?;
        }
    }
    Ok(others)
}

/// The set of these candidates.
pub fn set_of(candidates: &[Candidate]) -> CandSet
    requires { IsTrue (is_distinct candidates.now) }
    ensures { result ≡ set_of candidates.now }
{
    let mut set = CandSet::empty();
    for c in candidates {
        set = set.with(*c);
    }
    set
}

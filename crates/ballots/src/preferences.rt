// The preferences of a ballot.
ghost use Rattle.std.specs.Prelude.{◌≡◌, ◌≤◌, ◌++◌, ◌∷◌, [], ℕ, List, Some, IfOk, IsTrue, is_some, length};
ghost use Rattle.irv_base.specs.declared.limits.TheConstants.{ROOM};
ghost use Rattle.irv_base.specs.Names.{all_differ, candidate_named};
ghost use Rattle.ballots.specs.Grammar.{ranking_of};

use crate::guesses::Guesses;
use crate::listed::Listed;
use crate::taker::RankingTaker;
use ballot_ids::is_same;
use csv_rows::Fields;
use irv_base::{CandSet, Candidate, Memory, Name, Ranking, candidate_named};

// The candidate with that id, looked up first at its guessed place. It isn't inlined: if it were, the caller would have fewer instructions,
// but would take a tenth longer.
#[inline(never)]
fn candidate_of(candidates: &[Name], guesses: &Guesses, id: &[u8]) -> Option<Candidate>
    requires few { length candidates.now ≤ ROOM }
    requires differ { IsTrue (all_differ candidates.now) }
    ensures { result ≡ candidate_named candidates.now id.now }
{
    let guess = guesses.place(id);
    if guess < candidates.len() && is_same(candidates[guess].bytes(), id) {
        return Some(Candidate(guess as u8));
    }
    candidate_named(candidates, id)
}

/// Appends the ranking of these preferences, as `ranking_of` gives it, and returns whether there is one. If there is none, what is appended
/// is unknown. Guesses save time, and need candidates that are all different. It isn't inlined, since the processor has too few registers
/// for both.
#[inline(never)]
pub(crate) fn rank<T: RankingTaker>(
    candidates: &[Name],
    guesses: &Guesses,
    preferences: Fields<'_>,
    rankings: &mut T,
) -> Result<bool, Memory>
    requires few { length candidates.now ≤ ROOM }
    requires differ { IsTrue (all_differ candidates.now) }
    requires room { length candidates.now ≤ T.room rankings.now }
    ensures room { T.room rankings.new ≡ T.room rankings.old }
    ensures known { IfOk result (λ known.
        known ≡ is_some (ranking_of candidates.now preferences.entry)) }
    ensures ranked { IfOk result (λ _. (ranking : List ℕ)
        → ranking_of candidates.now preferences.entry ≡ Some ranking
        → T.rankings rankings.new ≡ T.rankings rankings.old ++ ranking ∷ []) }
{
    rankings.begin()?;
    let mut seen = CandSet::empty();
    for preference in preferences {
        if preference.is_empty() {
            continue;
        }
        let Some(candidate) = candidate_of(candidates, guesses, preference) else {
            return Ok(false);
        };
        if !seen.has(candidate) {
            rankings.lengthen(candidate)?;
            seen = seen.with(candidate);
        }
    }
    Ok(true)
}

/// The ranking of these preferences, if each one that isn't blank is the id of one of a few candidates. A repeated candidate counts at its
/// first place.
pub fn ranking_of(candidates: &[Name], preferences: Fields<'_>) -> Option<Ranking>
    requires { length candidates.now ≤ ROOM }
    ensures { result ≡ ranking_of candidates.now preferences.entry }
{
    let mut ranking = Ranking::empty();
    for preference in preferences {
        if preference.is_empty() {
            continue;
        }
        ranking.push(candidate_named(candidates, preference)?);
    }
    Some(ranking)
}

fn is_candidate(candidates: &Listed, id: &[u8]) -> bool
    ensures { result ≡ is_some (candidate_named candidates.now id.now) }
{
    candidates.has(id)
}

/// Whether each of these preferences that isn't blank is one of the candidates. There may be many candidates.
pub fn are_candidates(candidates: &Listed, preferences: Fields<'_>) -> bool
    ensures { result ≡ is_some (ranking_of candidates.now preferences.entry) }
{
    for preference in preferences {
        if preference.is_empty() {
            continue;
        }
        if !is_candidate(candidates, preference) {
            return false;
        }
    }
    true
}

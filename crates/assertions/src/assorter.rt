// How a ballot counts for an assertion.
ghost use Rattle.std.specs.Prelude.{◌≡◌};
ghost use Rattle.irv_base.specs.Records.{is_first, is_ahead};
ghost use Rattle.assertions.specs.Assorter.{assorter_value};

use crate::Assertion;
use irv_base::{Candidate, Ranking};

fn is_first(ranking: &Ranking, w: Candidate) -> bool
    ensures { result ≡ is_first ranking.now w }
{
    ranking.candidates().first() == Some(&w)
}

/// Whether the ranking includes `l` and doesn't have `w` ahead of it.
fn is_ahead(ranking: &Ranking, l: Candidate, w: Candidate) -> bool
    ensures { result ≡ is_ahead ranking.now l w }
{
    for c in ranking.candidates() {
        if *c == l {
            return true;
        }
        if *c == w {
            return false;
        }
    }
    false
}

/// The assorter value of a ballot with this ranking, doubled: 2 if it counts for the winner, 0 if it counts for the loser, and 1
/// otherwise.
pub fn value_of(a: &Assertion, r: &Ranking) -> u8
    ensures { result ≡ assorter_value a.now r.now }
{
    let (for_winner, for_loser) = match *a {
        Assertion::Neb { w, l } => (is_first(r, w), is_ahead(r, l, w)),
        Assertion::Nen { w, l, rest } => {
            let top = r.first_in(rest);
            (top == Some(w), top == Some(l))
        }
    };
    if for_winner {
        2
    } else if for_loser {
        0
    } else {
        1
    }
}

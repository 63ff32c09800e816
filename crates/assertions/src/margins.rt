// The margins of assertions.
ghost use Rattle.std.specs.Prelude.{◌≡◌, ℕ, ◌<◌, List, length, pos, ◌-ℤ◌, IfOk, IsTrue};
ghost use Rattle.assertions.specs.declared.assertion.Assertion.TheVariants.{Neb, Nen};
ghost use Rattle.assertions.specs.Assertions.{is_proper, margin};
ghost use Rattle.set_tallies.specs.Bags.{IsOf, AreOf, HasTallies};

use crate::Assertion;
use irv_base::{Candidate, Memory};
use set_tallies::{Ahead, Tallies};

fn lead(for_winner: u32, for_loser: u32) -> i64
    ensures { result ≡ pos for_winner -ℤ pos for_loser }
{
    i64::from(for_winner) - i64::from(for_loser)
}

fn neb_margin(ahead: &Ahead, w: Candidate, l: Candidate) -> i64
    requires winner { w < ahead.now.n }
    requires loser { l < ahead.now.n }
    ensures { (records : List (List ℕ)) → AreOf ahead.now records
        → result ≡ margin records (Neb w l) }
{
    lead(ahead.first(w), ahead.ahead(l, w))
}

// The margin of a NEN, from the tallies of its set.
fn nen_margin(row: &[u32], w: Candidate, l: Candidate) -> i64
    requires winner { w < length row.now }
    requires loser { l < length row.now }
    ensures { (n rest : ℕ) (records : List (List ℕ)) → HasTallies records n rest row.now
        → IsTrue (is_proper n (Nen w l rest)) → result ≡ margin records (Nen w l rest) }
{
    lead(row[w.index()], row[l.index()])
}

/// The margin of a proper assertion over the records of the tallies, in votes: the votes that the records have for its winner,
/// minus the votes that they have for its loser. It is below 0 if the loser has more (RAIRE, section 3).
pub fn margin(a: &Assertion, t: &mut Tallies<'_>) -> Result<i64, Memory>
    requires { IsTrue (is_proper t.old.bag.n a.now) }
    ensures margin { (records : List (List ℕ)) → IsOf t.old.bag records
        → IfOk result (λ m. m ≡ margin records a.now) }
    ensures same { t.new ≡ t.old }
{
    match *a {
        Assertion::Neb { w, l } => Ok(neb_margin(t.ahead(), w, l)),
        Assertion::Nen { w, l, rest } => match t.row(rest) {
            Some(row) => Ok(nen_margin(row, w, l)),
            None => {
                let row = t.tally(rest)?;
                Ok(nen_margin(&row, w, l))
            }
        },
    }
}

// The margins of claims.
ghost use Rattle.std.specs.Prelude.{◌≡◌, ◌≤◌, ℕ, List, length, map, find, not, All, IfOk, IsTrue};
ghost use Rattle.irv_base.specs.declared.limits.TheConstants.{MOST_RECORDS};
ghost use Rattle.set_tallies.specs.Bags.{IsOf};
ghost use Rattle.assertions.specs.Assertions.{is_proper, is_true};
ghost use Rattle.assertions.specs.Certificate.{claim_of};

use assertions::{Assertion, Claim, margin};
use irv_base::Memory;
use set_tallies::Tallies;
use std::alloc::Global;

/// Returns the first assertion that isn't true of the records of the tallies.
pub fn first_untrue(
    list: &[Assertion],
    tallies: &mut Tallies<'_>,
) -> Result<Option<Assertion>, Memory>
    requires { All (λ a. IsTrue (is_proper tallies.old.bag.n a)) list.now }
    ensures found { (records : List (List ℕ)) → IsOf tallies.old.bag records
        → IfOk result (λ found. found ≡ find (λ a. not (is_true records a)) list.now) }
    ensures same { tallies.new ≡ tallies.old }
{
    for a in list {
        if margin(a, tallies)? <= 0 {
            return Ok(Some(*a));
        }
    }
    Ok(None)
}

/// Returns the assertions with their margins over the records of the tallies. An assertion that isn't true has margin 0.
pub fn with_margins(
    alloc: Global,
    list: &[Assertion],
    tallies: &mut Tallies<'_>,
) -> Result<Vec<Claim>, Memory>
    requires { All (λ a. IsTrue (is_proper tallies.old.bag.n a)) list.now }
    ensures claims { (records : List (List ℕ)) → IsOf tallies.old.bag records →
        length records ≤ MOST_RECORDS →
        IfOk result (λ claims. claims.items ≡ map (claim_of records) list.now) }
    ensures same { tallies.new ≡ tallies.old }
{
    let mut claims = Vec::with_capacity(alloc, list.len())?;
    for a in list {
        let margin = margin(a, tallies)?;
        claims.push(Claim {
            assertion: *a,
            margin: u32::try_from(margin).unwrap_or(0),
        })?;
    }
    Ok(claims)
}

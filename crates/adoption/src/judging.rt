// Whether claims can be adopted.
ghost use Rattle.std.specs.Prelude.{◌≡◌, ◌≤◌, ◌<◌, ℕ, List, length, map, find, not, Some, None, All, IfOk, IfErr, IsTrue};
ghost use Rattle.std.specs.List.{list_all};
ghost use Rattle.set_tallies.specs.Bags.{IsOf};
ghost use Rattle.irv_base.specs.declared.limits.TheConstants.{MOST_RECORDS};
ghost use Rattle.assertion_file.specs.Content.{IsSound};
ghost use Rattle.assertions.specs.Assertions.{is_proper, is_true};
ghost use Rattle.assertions.specs.Certificate.{claim_of};
ghost use Rattle.claims_file.specs.Claimed.{AreSound};
ghost use Rattle.adoption.specs.Adopted.{each_once, file_with, has_margin};
ghost use Rattle.adoption.specs.Answers.{IsAnswer, IsFault};

use crate::adoption::Adoption;
use crate::each_once::each_once;
use crate::margins::{first_untrue, with_margins};
use assertion_file::{AssertionFile, Parts};
use assertions::{Assertion, Claim};
use ballots::Votes;
use budget::Budget;
use claims_file::Claims;
use cover_checker::{CoverFault, Verdict, covered, smallest_margin, winner_of};
use irv_base::{Candidate, Memory};
use set_tallies::Tallies;
use std::alloc::Global;

// Whether each of these claims has a margin.
fn have_margins(claims: &[Claim]) -> bool
    ensures { result ≡ list_all has_margin claims.now }
{
    claims.iter().all(|claim| claim.margin != 0)
}

// The first assertion that isn't true. The claims are the assertions with their margins, each once, in the fixed order. If all claims are
// true, no other margin is computed.
fn untrue(
    list: &[Assertion],
    claims: &[Claim],
    tallies: &mut Tallies<'_>,
) -> Result<Option<Assertion>, Memory>
    requires { All (λ a. IsTrue (is_proper tallies.old.bag.n a)) list.now }
    ensures found { (records : List (List ℕ)) → IsOf tallies.old.bag records →
        claims.now ≡ map (claim_of records) (each_once tallies.old.bag.n list.now) →
        IfOk result (λ found. found ≡ find (λ a. not (is_true records a)) list.now) }
    ensures same { tallies.new ≡ tallies.old }
{
    if have_margins(claims) {
        return Ok(None);
    }
    first_untrue(list, tallies)
}

// The contest's file with these claims.
fn file_with(
    alloc: Global,
    votes: &Votes,
    winner: Candidate,
    claims: Vec<Claim>,
) -> Result<AssertionFile, Memory>
    requires { IsSound (file_with votes.now winner claims.items) }
    ensures { IfOk result (λ file. file ≡ file_with votes.now winner claims.items) }
{
    let candidates = votes.candidates().to_vec(alloc)?;
    let margin = smallest_margin(&claims);
    Ok(AssertionFile::new(Parts {
        contest: *votes.contest(),
        candidates,
        records: votes.records(),
        winner,
        margin,
        order: None,
        claims,
        plan: None,
    }))
}

/// Adopts the claims over the votes, whose tallies these are. If all claims are true and they refute every order that elects another
/// candidate, the answer is the assertion file that has them with their margins, each once, in the fixed order. If not, the answer is the
/// first finding in the order of `Adoption`. The budget runs out if `covered` says so for the claims. What the claims file says about
/// margins doesn't matter. Claims that can be adopted prove the winner, whatever ties the contest has.
///
/// The other error is running out of memory.
pub fn adopt(
    alloc: Global,
    votes: &Votes,
    tallies: &mut Tallies<'_>,
    claims: &Claims,
    budget: Budget,
) -> Result<Adoption, CoverFault>
    requires candidates { tallies.old.bag.n ≡ length (votes.now).candidates }
    requires records { IsOf tallies.old.bag (votes.now).rankings }
    requires sound { AreSound (length (votes.now).candidates) claims.now }
    ensures adopted { IfOk result (λ adoption. IsAnswer budget votes.now claims.now (Ok adoption)) }
    ensures fault { IfErr result (IsFault budget votes.now claims.now) }
    ensures same { tallies.new ≡ tallies.old }
{
    let n = votes.candidates().len() as u32;
    // Calls this for what its contract says: there are few enough records for a margin to be a number in a file.
    let _records = votes.records();
    let Ok(winner) = winner_of(alloc, tallies) else {
        return Err(CoverFault::Memory);
    };
    if claims.winner != winner {
        return Ok(Adoption::OtherWinner(winner));
    }
    let list = each_once(alloc, &claims.assertions)?;
    let weighed = with_margins(alloc, &list, tallies)?;
    if let Some(assertion) = untrue(&claims.assertions, &weighed, tallies)? {
        return Ok(Adoption::Untrue(assertion));
    }
    match covered(alloc, n, winner, &list, budget)? {
        Verdict::Stands(order) => Ok(Adoption::Stands(order)),
        Verdict::Covered => Ok(Adoption::Adopted(file_with(alloc, votes, winner, weighed)?)),
    }
}

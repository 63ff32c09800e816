// Whether an assertion file holds of some votes.
ghost use Rattle.std.specs.Prelude.{◌≡◌, ℕ, List, length, IfOk, IfErr};
ghost use Rattle.set_tallies.specs.Bags.{IsOf};
ghost use Rattle.assertion_file.specs.Content.{candidate_count};
ghost use Rattle.cover_checker.specs.Checks.{IsAnswer, IsFault, findings, first_found};
ghost use Rattle.cover_checker.specs.Outcomes.{IsWinner};
ghost use Rattle.cover_checker.specs.Findings.{IsErrOf, IsWant};

use crate::checked::{CheckFault, Checked};
use crate::findings::{
    elected, harder, is_about, other_draws, other_margin, other_smallest, other_winner, uncovered,
};
use assertion_file::AssertionFile;
use ballots::Votes;
use budget::Budget;
use irv_base::Candidate;
use irv_tabulator::{TabFault, tabulate};
use set_tallies::Tallies;
use std::alloc::Global;

/// Returns the winner of the tallies' contest: the last candidate of its tabulated order. The error is running out of memory.
pub fn winner_of(alloc: Global, tallies: &mut Tallies<'_>) -> Result<Candidate, CheckFault>
    ensures winner { (records : List (List ℕ)) → IsOf tallies.old.bag records
        → IfOk result (IsWinner tallies.old.bag.n records) }
    ensures fault { IfErr result IsWant }
    ensures same { tallies.new ≡ tallies.old }
{
    match tabulate(alloc, tallies) {
        Ok(tabulated) => Ok(tabulated.winner),
        Err(TabFault::Memory) => Err(CheckFault::Memory),
    }
}

// The first finding in a file about the tallies' contest, whose winner is this one.
fn judge(
    alloc: Global,
    tallies: &mut Tallies<'_>,
    winner: Candidate,
    file: &AssertionFile,
    budget: Budget,
) -> Result<Checked, CheckFault>
    requires { candidate_count file.now ≡ tallies.old.bag.n }
    ensures checked { (records : List (List ℕ)) → IsOf tallies.old.bag records
        → IfOk result (λ checked. first_found (findings budget records file.now winner)
        (Ok Checked.Accepted) ≡ Ok checked) }
    ensures fault { (records : List (List ℕ)) → IsOf tallies.old.bag records
        → IfErr result (IsErrOf
        (first_found (findings budget records file.now winner) (Ok Checked.Accepted))) }
    ensures same { tallies.new ≡ tallies.old }
{
    if let Some(found) = other_winner(winner, file) {
        return Ok(found);
    }
    if let Some(found) = other_margin(file.claims(), tallies)? {
        return Ok(found);
    }
    if let Some(found) = uncovered(alloc, file, budget)? {
        return Ok(found);
    }
    if let Some(found) = other_smallest(file) {
        return Ok(found);
    }
    if let Some(found) = elected(file) {
        return Ok(found);
    }
    if let Some(found) = harder(file, tallies)? {
        return Ok(found);
    }
    if let Some(found) = other_draws(file) {
        return Ok(found);
    }
    Ok(Checked::Accepted)
}

/// Checks whether the file holds of the votes, whose tallies these are. If it doesn't, the answer is the first finding in the order of
/// `Checked`. The budget runs out if `covered` says so for the claims. Claims that hold prove the winner, whatever ties the contest has.
///
/// The other error is running out of memory.
pub fn check(
    alloc: Global,
    votes: &Votes,
    tallies: &mut Tallies<'_>,
    file: &AssertionFile,
    budget: Budget,
) -> Result<Checked, CheckFault>
    requires candidates { tallies.old.bag.n ≡ length (votes.now).candidates }
    requires records { IsOf tallies.old.bag (votes.now).rankings }
    ensures checked { IfOk result (λ checked. IsAnswer budget votes.now file.now (Ok checked)) }
    ensures fault { IfErr result (IsFault budget votes.now file.now) }
    ensures same { tallies.new ≡ tallies.old }
{
    if !is_about(votes, file) {
        return Ok(Checked::OtherContest);
    }
    let winner = winner_of(alloc, tallies)?;
    judge(alloc, tallies, winner, file, budget)
}

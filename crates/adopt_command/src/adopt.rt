// `adopt BALLOTS CLAIMS`: an assertion file with the assertions of a claims file and their margins.
ghost use Rattle.std.specs.Prelude.{◌≡◌, ◌≤◌, length, IfOk, IsTrue, string_bytes};
ghost use Rattle.irv_base.specs.declared.limits.TheConstants.{ROOM};
ghost use Rattle.assertions.specs.Assertions.{is_proper};
ghost use Rattle.desk.specs.Count.{Rose};
ghost use Rattle.ballots.specs.Ballots.{BallotFile, votes_of};
ghost use Rattle.claims_file.specs.Claimed.{AreSound};
ghost use Rattle.report.specs.Texts.{assertion_text};
ghost use Rattle.cli_base.specs.Accounts.{IsAccountedFor};
ghost use Rattle.cli_base.specs.Begun.{HasCome};
ghost use Rattle.cli_base.specs.Due.{due, IsOneOrMemory};
ghost use Rattle.cli_base.specs.Faults.{IsFaultTold};
ghost use Rattle.cli_base.specs.Script.{ByDesk, Runs};
ghost use Rattle.command.specs.Adopt.{IsWithinLimits};
ghost use Rattle.check_command.specs.Check.{differs};
ghost use Rattle.adopt_command.specs.Adopt.{Adopts, adoption_verdict, after_ballots, isnt_true, script};
ghost use Rattle.adopt_command.specs.Named.{IsAmong};

use adoption::{Adoption, adopt};
use assertion_file::print_file;
use assertions::Assertion;
use ballots::Votes;
use budget::Budget;
use check_command::check::{
    candidate_spent, difference, order_stands, other_winner, spent_sets_answer,
};
use claims_file::Claims;
use cli_base::{Answer, AnswerKind, Refusal};
use command::{AdoptTask, FileName};
use cover_checker::CoverFault;
use desk::Desk;
use input_files::{bytes_of, claims_in, readers_at_hand, votes_of_file};
use irv_base::Name;
use report::assertion_text;
use std::alloc::{AllocError, Global};
use std::thread::Threads;

// The number of workers that count the votes, if they weren't counted as they were read.
const WORKERS: u32 = 1;

/// The assertion file of the claims, if they are true and refute every order that elects another candidate; otherwise the first fault that
/// is found.
pub fn answer<R: AllocGlobal + Threads + Sync, D: Desk>(
    rt: &R,
    desk: &mut D,
    task: &AdoptTask,
) -> Result<Answer, Refusal>
    requires { IsWithinLimits task.now }
    ensures held { D.held desk.new ≡ D.held desk.old }
    ensures faults { IsFaultTold (D.faults desk.old) (D.faults desk.new) (due result).status }
    ensures due { HasCome
        (ByDesk (D.held desk.old) (Rose (D.faults desk.old) (D.faults desk.new)))
        (D.served desk.old) (D.served desk.new)
        (Runs (script task.now)) (due result) }
    ensures served { IsAccountedFor 2 (D.served desk.old) (D.served desk.new) (due result).status }
{
    let readers = readers_at_hand(rt);
    let votes = votes_of_file(rt, desk, &task.ballots, task.contest.as_ref(), readers)?;
    after_votes(rt, desk, &votes, &task.claims, task.budget)
}

// The same for votes that have been read, by the claims file of this name.
fn after_votes<R: AllocGlobal + Threads + Sync, D: Desk>(
    rt: &R,
    desk: &mut D,
    votes: &Votes,
    claims: &FileName,
    budget: Budget,
) -> Result<Answer, Refusal>
    ensures held { D.held desk.new ≡ D.held desk.old }
    ensures faults { IsFaultTold (D.faults desk.old) (D.faults desk.new) (due result).status }
    ensures due { (ballots : BallotFile) → votes.now ≡ votes_of ballots → HasCome
        (ByDesk (D.held desk.old) (Rose (D.faults desk.old) (D.faults desk.new)))
        (D.served desk.old) (D.served desk.new)
        (Runs (after_ballots claims.now budget ballots)) (due result) }
    ensures served { IsAccountedFor 1 (D.served desk.old) (D.served desk.new) (due result).status }
{
    let alloc = rt.alloc();
    let bytes = bytes_of(alloc, desk, claims)?;
    let claimed = claims_in(alloc, claims, votes.contest(), votes.candidates(), &bytes)?;
    of_claims(rt, votes, &claimed, budget)
}

// The same for claims that have been read.
fn of_claims<R: AllocGlobal + Threads + Sync>(
    rt: &R,
    votes: &Votes,
    claims: &Claims,
    budget: Budget,
) -> Result<Answer, Refusal>
    requires { AreSound (length (votes.now).candidates) claims.now }
    ensures { IsOneOrMemory (Adopts budget votes.now claims.now) (due result) }
{
    let alloc = rt.alloc();
    let counted = votes.counted(rt, WORKERS)?;
    let mut tallies = counted.tallies()?;
    match adopt(alloc, votes, &mut tallies, claims, budget) {
        Ok(adoption) => adoption_answer(alloc, votes.candidates(), &adoption),
        Err(fault) => match fault {
            CoverFault::Spent { last } => candidate_spent(alloc, votes.candidates(), last),
            CoverFault::SpentSets { sets } => spent_sets_answer(alloc, sets),
            CoverFault::Memory => Err(Refusal::Memory),
        },
    }
}

// The answer for the result of the adoption, by the names of the candidates.
fn adoption_answer(alloc: Global, names: &[Name], adoption: &Adoption) -> Result<Answer, Refusal>
    requires few { length names.now ≤ ROOM }
    requires among { IsAmong (length names.now) adoption.now }
    ensures { IsOneOrMemory (λ verdict.
        verdict ≡ adoption_verdict names.now adoption.now) (due result) }
{
    match adoption {
        Adoption::OtherWinner(winner) => other_winner(alloc, names, *winner),
        Adoption::Untrue(assertion) => untrue_answer(alloc, names, assertion),
        Adoption::Stands(order) => order_stands(alloc, names, order),
        Adoption::Adopted(file) => Ok(Answer {
            kind: AnswerKind::Done,
            text: print_file(alloc, file)?,
        }),
    }
}

// The answer if an assertion isn't true.
fn untrue_answer(alloc: Global, names: &[Name], assertion: &Assertion) -> Result<Answer, Refusal>
    requires few { length names.now ≤ ROOM }
    requires proper { IsTrue (is_proper (length names.now) assertion.now) }
    ensures { IsOneOrMemory (λ verdict.
        verdict ≡ differs (isnt_true (assertion_text names.now assertion.now))) (due result) }
{
    let assertion = assertion_text(alloc, names, assertion)?;
    let text = isnt_true(alloc, assertion.as_str())?;
    difference(alloc, text.as_str())
}

fn isnt_true(alloc: Global, assertion: &str) -> Result<String, AllocError>
    ensures { IfOk result (λ text. string_bytes text ≡ isnt_true assertion.now) }
{
    format!(in alloc; "assertion {assertion} isn't true")
}

// Whether the assertions of a file refute each order that elects a candidate other than its winner.
ghost use Rattle.std.specs.Prelude.{◌≡◌, ◌≢◌, Err, Ok, Some, map, IfOk, IfErr, IfSome, is_none};
ghost use Rattle.assertion_file.specs.Content.{candidate_count};
ghost use Rattle.cover_checker.specs.Covers.{covered_is};
ghost use Rattle.cover_checker.specs.Findings.{assertions_of};
ghost use Rattle.cover_checker.specs.declared.cover.CoverFault.TheVariants.{Memory as WantOfMemory};
ghost use Rattle.cli_base.specs.Due.{due, due_refusal, IsOneOrMemory};
ghost use Rattle.cli_base.specs.Outcome.{out_of_memory};
ghost use Rattle.poll_command.specs.Poll.{uncovered};
ghost use Rattle.poll_command.specs.Said.{IsOfFile, unless_stands};

use assertion_file::AssertionFile;
use assertions::{Assertion, Claim};
use budget::Budget;
use check_command::check::{spent_answer, standing_answer};
use cli_base::{Answer, Refusal};
use cover_checker::{CoverFault, Verdict, covered};
use irv_base::Memory;
use std::alloc::Global;

fn assertions_of(alloc: Global, claims: &[Claim]) -> Result<Vec<Assertion>, Memory>
    ensures { IfOk result (λ list. list.items ≡ map (λ claim. claim.assertion) claims.now) }
{
    Ok(claims.iter().map(|claim| claim.assertion).collect(alloc)?)
}

// What the checker says of the assertions.
fn said(alloc: Global, file: &AssertionFile, nodes: u32) -> Result<Verdict, CoverFault>
    ensures { result ≢ Err WantOfMemory → result
        ≡ covered_is (candidate_count file.now) file.now.winner (assertions_of file.now) (Budget.Nodes nodes) }
{
    let list = assertions_of(alloc, file.claims())?;
    let n = file.candidates().len() as u32;
    covered(alloc, n, file.winner(), &list, Budget::Nodes(nodes))
}

// How the call ends if an order isn't refuted.
fn unless_stands(
    alloc: Global,
    file: &AssertionFile,
    verdict: &Verdict,
) -> Result<Option<Answer>, Refusal>
    requires { IsOfFile file.now verdict.now }
    ensures covered { IfOk result (λ found.
        is_none (unless_stands file.now verdict.now) ≡ is_none found) }
    ensures other { IfOk result (λ found. IfSome found (λ answer.
        IsOneOrMemory (λ end. unless_stands file.now verdict.now ≡ Some end) (due (Ok answer)))) }
    ensures not_done { IfOk result (λ found. IfSome found (λ answer.
        (due (Ok answer)).status ≢ 0)) }
    ensures memory { IfErr result (λ refusal. due_refusal refusal ≡ out_of_memory) }
{
    match verdict {
        Verdict::Covered => Ok(None),
        Verdict::Stands(order) => Ok(Some(standing_answer(alloc, file, order)?)),
    }
}

/// How the call ends if the assertions don't refute each order that elects a candidate other than their winner within this many nodes.
pub(crate) fn unless_covered(
    alloc: Global,
    file: &AssertionFile,
    nodes: u32,
) -> Result<Option<Answer>, Refusal>
    ensures covered { IfOk result (λ found. is_none (uncovered nodes file.now) ≡ is_none found) }
    ensures other { IfOk result (λ found. IfSome found (λ answer.
        IsOneOrMemory (λ end. uncovered nodes file.now ≡ Some end) (due (Ok answer)))) }
    ensures not_done { IfOk result (λ found. IfSome found (λ answer.
        (due (Ok answer)).status ≢ 0)) }
    ensures memory { IfErr result (λ refusal. due_refusal refusal ≡ out_of_memory) }
{
    match said(alloc, file, nodes) {
        Ok(verdict) => unless_stands(alloc, file, &verdict),
        Err(fault) => match fault {
            CoverFault::Spent { last } => Ok(Some(spent_answer(alloc, file, last)?)),
            CoverFault::SpentSets { .. } => unreachable!(),
            CoverFault::Memory => Err(Refusal::Memory),
        },
    }
}

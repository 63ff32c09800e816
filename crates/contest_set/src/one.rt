// The audit of one contest.
ghost use Rattle.std.specs.Prelude.{◌≡◌, ◌≤◌, length, None, IfOk, IfErr};
ghost use Rattle.irv_base.specs.declared.limits.TheConstants.{GREATEST_LIMIT};
ghost use Rattle.manifest.specs.Linked.{first_without_card};
ghost use Rattle.contest_search.specs.declared.found.Found.TheVariants.{Certificate};
ghost use Rattle.audit_session.specs.Refusals.{Refuses, without_record};
ghost use Rattle.contest_set.specs.Ends.{AreWithinLimits, Finds, are_confirmed, round_over};
ghost use Rattle.contest_set.specs.Refusals.{IsOne};

use crate::end::ContestEnd;
use crate::fault::SetFault;
use crate::gate::Numbered;
use crate::terms::SharedTerms;
use assertion_file::AssertionFile;
use audit_session::{AdvanceFault, first_round};
use ballots::Ballots;
use budget::Budget;
use contest_search::{Found, find};
use desk::Gate;
use km_risk::is_confirmed;
use manifest::{LinkFault, Linked, Manifest, link};
use seen_file::SeenCards;
use session_state::{DoneRound, margins_of};
use std::alloc::Global;
use std::thread::Threads;

// The number of workers in the search of one contest.
const ALONE: u32 = 1;

// Whether each risk is within the limit.
fn are_confirmed(limit: u32, risks: &[u64]) -> bool
    requires { limit ≤ GREATEST_LIMIT }
    ensures { result ≡ are_confirmed limit risks.now }
{
    for risk in risks {
        if !is_confirmed(*risk, limit) {
            return false;
        }
    }
    true
}

// The round of all draws, over the claims of a file.
fn round_of(
    alloc: Global,
    linked: &Linked,
    seen: &SeenCards,
    terms: &SharedTerms,
    file: &AssertionFile,
) -> Result<DoneRound, AdvanceFault>
    requires terms { AreWithinLimits terms.now }
    requires card { 1 ≤ length linked.now }
    requires records { file.now.records ≤ length linked.now }
    ensures none { IfOk result (λ _.
        without_record terms.now.seed (length linked.now) seen.now terms.now.draws ≡ None) }
    ensures round { IfOk result (λ round.
        round ≡ round_over terms.now linked.now seen.now file.now) }
    ensures refused { IfErr result
        (Refuses (without_record terms.now.seed (length linked.now) seen.now terms.now.draws)) }
{
    // Called for its contract: there are at most as many cards as a manifest has.
    let _cards = linked.cards();
    let margins = margins_of(alloc, file.claims())?;
    first_round(
        alloc,
        &margins,
        terms.gamma,
        &terms.seed,
        linked,
        file,
        seen,
        terms.draws,
    )
}

// How the audit of a contest that has a winner ends, by this file: at the end of one round, unless the card of a draw has no record.
fn audited(
    alloc: Global,
    place: u32,
    ballots: &Ballots,
    m: &Manifest,
    seen: &SeenCards,
    terms: &SharedTerms,
    file: AssertionFile,
) -> Result<ContestEnd, SetFault>
    requires linked { first_without_card m.now ballots.now ≡ None }
    requires terms { AreWithinLimits terms.now }
    requires found { Finds terms.now ballots.now (Certificate file) }
    ensures { IsOne m.now terms.now ballots.now seen.now place result }
{
    // Called for their contracts: there is a card, and there are no more ballots than cards.
    let _cards = m.cards();
    let _ids = ballots.ids();
    let linked = match link(alloc, m, ballots) {
        Ok(linked) => linked,
        Err(LinkFault::NoCard { .. }) => unreachable!(),
        Err(LinkFault::Memory) => return Err(SetFault::Memory),
    };
    let round = match round_of(alloc, &linked, seen, terms, &file) {
        Ok(round) => round,
        Err(AdvanceFault::NoRecord { card, k }) => {
            return Err(SetFault::NoRecord {
                contest: place,
                card,
                k,
            });
        }
        Err(_) => return Err(SetFault::Memory),
    };
    let signed = are_confirmed(terms.limit, round.risks());
    Ok(ContestEnd::Audited {
        file,
        counts: round.counts().to_vec(alloc)?,
        risks: round.risks().to_vec(alloc)?,
        signed,
    })
}

/// Audits the contest at this place, by its own ballots and by what is seen for it, and returns how that ends.
pub fn audit_one<R: AllocGlobal + Threads + Sync, G: Gate + Sync>(
    rt: &R,
    place: u32,
    ballots: &Ballots,
    m: &Manifest,
    seen: &SeenCards,
    terms: &SharedTerms,
    gate: &G,
) -> Result<ContestEnd, SetFault>
    requires linked { first_without_card m.now ballots.now ≡ None }
    requires terms { AreWithinLimits terms.now }
    ensures { IsOne m.now terms.now ballots.now seen.now place result }
{
    let gate = Numbered { gate, place };
    let votes = ballots.votes(rt.alloc())?;
    match find(rt, &votes, ALONE, Budget::Nodes(terms.nodes), &gate)? {
        Found::Certificate(file) => audited(rt.alloc(), place, ballots, m, seen, terms, file),
        Found::Tie { round, tied, votes } => Ok(ContestEnd::Tied {
            round,
            tied,
            tally: votes,
        }),
        Found::Spent {
            last,
            order,
            margin,
        } => Ok(ContestEnd::Spent {
            last,
            order,
            margin,
        }),
        // The budget isn't a number of sets.
        Found::SpentSets { .. } => unreachable!(),
    }
}

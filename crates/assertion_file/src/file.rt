// What an assertion file says.
ghost use Rattle.std.specs.Prelude.{◌≡◌, ◌<◌, ◌≤◌, length, option_map, All, IfSome, IsTrue};
ghost use Rattle.irv_base.specs.Orders.{is_order};
ghost use Rattle.irv_base.specs.declared.limits.TheConstants.{FEWEST_CANDIDATES, MOST_CANDIDATES, MOST_RECORDS};
ghost use Rattle.irv_base.specs.Names.{all_differ};
ghost use Rattle.assertion_file.specs.Content.{IsDrawCount, IsMargin, IsSound, IsSoundClaim, IsSoundPlan, Plan};

use crate::plan::PlanFacts;
use assertions::Claim;
use irv_base::{Candidate, Name, Order};
use std::marker::Model;

/// The values that make up an assertion file. The type doesn't say that they are those of a file.
///
/// In a contract, they are the record of these values, with a list for each list.
#[derive(Drop)]
pub struct Parts {
    /// The id of the contest.
    pub contest: Name,
    /// The ids of the candidates, in the contest's order.
    pub candidates: Vec<Name>,
    /// The number of ballot records of the contest.
    pub records: u32,
    /// The winner of the contest.
    pub winner: Candidate,
    /// The smallest margin of the assertions, in votes.
    pub margin: u32,
    /// The order that is hardest to refute, first eliminated first. A file of version 3 says nothing about an order.
    pub order: Option<Order>,
    /// The assertions and their margins, in votes.
    pub claims: Vec<Claim>,
    /// What an audit of the assertions takes. A file of version 1 doesn't say this, and one of version 3 doesn't have to.
    pub plan: Option<PlanFacts>,
}

impl Model for Parts {
    ghost use Rattle.assertion_file.specs.Content.{Content};

    ghost Value = { Content };

    ghost view = { λ p. record {
      contest = p.contest;
      candidates = p.candidates.items;
      records = p.records;
      winner = p.winner;
      margin = p.margin;
      order = p.order;
      claims = p.claims.items;
      plan = p.plan;
    } };
}

/// What an assertion file says of a contest: its winner, the assertions to be confirmed with their margins, and an order that shows why
/// there is no larger margin. A file of version 2 also has a plan: the draws that confirm each assertion if no card shows a discrepancy. A
/// file of version 3 has no order, since it doesn't say that its margin is the best one. It may have a plan.
///
/// There are `FEWEST_CANDIDATES` to `MOST_CANDIDATES` candidates, all different, and 1 to `MOST_RECORDS` ballot records. A candidate is its
/// place in the list of candidates, from 0. An order is one of all candidates, each assertion is a proper one among them, and each margin,
/// of the file and of the claims, is 1 to the number of records. A plan is for at least as many cards as there are records and at most
/// `MOST_CARDS`, with a gamma of 1 to `GREATEST_GAMMA` and a limit of 1 to `GREATEST_LIMIT`, and for each claim it has 1 to `MOST_DRAWS`
/// draws, or none. It is up to a checker to find out whether the file is true of any ballots.
///
/// In a contract, a file is the record of these values, with a list for each list.
#[derive(Drop)]
pub struct AssertionFile {
    parts: Parts,
}

impl Model for AssertionFile {
    ghost use Rattle.assertion_file.specs.Content.{Content, IsSound};

    ghost Value = { Content };

    ghost view = { λ f. f.parts };

    ghost invariant = { λ f. IsSound f.parts };
}

// The plan with these draws, if there is one.
fn with_draws(plan: Option<PlanFacts>, draws: Vec<Option<u32>>) -> Option<PlanFacts>
    ensures { result ≡ option_map (λ (plan : Plan). record plan { draws = draws.items }) plan }
{
    match plan {
        None => None,
        Some(plan) => Some(PlanFacts {
            cards: plan.cards,
            gamma: plan.gamma,
            limit: plan.limit,
            draws,
        }),
    }
}

impl AssertionFile {
    /// The file that says this of the contest.
    pub fn new(parts: Parts) -> AssertionFile
        requires fewest { FEWEST_CANDIDATES ≤ length parts.candidates }
        requires most { length parts.candidates ≤ MOST_CANDIDATES }
        requires differ { IsTrue (all_differ parts.candidates) }
        requires some_records { 1 ≤ parts.records }
        requires most_records { parts.records ≤ MOST_RECORDS }
        requires winner { parts.winner < length parts.candidates }
        requires margin { IsMargin parts.records parts.margin }
        requires order { IfSome parts.order (λ order.
            IsTrue (is_order (length parts.candidates) order)) }
        requires claims { All (IsSoundClaim (length parts.candidates) parts.records) parts.claims }
        requires plan { IfSome parts.plan (IsSoundPlan parts.records (length parts.claims)) }
        ensures { result ≡ parts }
    {
        AssertionFile { parts }
    }

    /// The file with this plan in place of any that it has.
    pub fn with_plan(self, plan: PlanFacts) -> AssertionFile
        requires { IsSoundPlan self.records (length self.claims) plan }
        ensures { result ≡ record self { plan = Some plan } }
    {
        let mut parts = self.parts;
        parts.plan = Some(plan);
        AssertionFile { parts }
    }

    /// The file with these claims and the draws that are planned for them, in place of its own. A file without a plan has no draws.
    pub(crate) fn with_claims(self, claims: Vec<Claim>, draws: Vec<Option<u32>>) -> AssertionFile
        requires claims { All (IsSoundClaim (length self.candidates) self.records) claims.items }
        requires each { length draws.items ≡ length claims.items }
        requires draws { All (λ draws. IfSome draws IsDrawCount) draws.items }
        ensures { result ≡ record self {
          claims = claims.items;
          plan = option_map (λ (plan : Plan). record plan { draws = draws.items }) self.plan;
        } }
    {
        let mut parts = self.parts;
        parts.claims = claims;
        parts.plan = with_draws(parts.plan, draws);
        AssertionFile { parts }
    }

    /// The id of the contest.
    pub fn contest(&self) -> &Name
        ensures { result.now ≡ self.now.contest }
    {
        &self.parts.contest
    }

    /// The ids of the candidates, in the contest's order.
    pub fn candidates(&self) -> &[Name]
        ensures same { result.now ≡ self.now.candidates }
        ensures fewest { FEWEST_CANDIDATES ≤ length result.now }
        ensures most { length result.now ≤ MOST_CANDIDATES }
        ensures differ { IsTrue (all_differ result.now) }
    {
        self.parts.candidates.as_slice()
    }

    /// The number of ballot records of the contest.
    pub fn records(&self) -> u32
        ensures same { result ≡ self.now.records }
        ensures some { 1 ≤ result }
        ensures most { result ≤ MOST_RECORDS }
    {
        self.parts.records
    }

    /// The winner of the contest.
    pub fn winner(&self) -> Candidate
        ensures same { result ≡ self.now.winner }
        ensures below { result < length self.now.candidates }
    {
        self.parts.winner
    }

    /// The margin that the file claims for the contest, in votes: the margin of its closest assertion.
    pub fn margin(&self) -> u32
        ensures same { result ≡ self.now.margin }
        ensures within { IsMargin self.now.records result }
    {
        self.parts.margin
    }

    /// The order that the file gives as the hardest to refute, first eliminated first. A file of version 3 gives no order.
    pub fn order(&self) -> Option<&Order>
        ensures same { option_map (λ order. order.now) result ≡ self.now.order }
        ensures order { IfSome result (λ order.
            IsTrue (is_order (length self.now.candidates) order.now)) }
    {
        self.parts.order.as_ref()
    }

    /// The assertions and their margins.
    pub fn claims(&self) -> &[Claim]
        ensures same { result.now ≡ self.now.claims }
        ensures sound { All
            (IsSoundClaim (length self.now.candidates) self.now.records) result.now }
    {
        self.parts.claims.as_slice()
    }

    /// What an audit of the assertions takes, if the file says it.
    pub fn plan(&self) -> Option<&PlanFacts>
        ensures same { option_map (λ plan. plan.now) result ≡ self.now.plan }
        ensures sound { IfSome result
            (λ plan. IsSoundPlan self.now.records (length self.now.claims) plan.now) }
        ensures file { IsSound self.now }
    {
        self.parts.plan.as_ref()
    }
}

// The canonical certificate.
ghost use Rattle.std.specs.Prelude.{◌≡◌, ◌≤◌, ℕ, List, map, IfOk, IfErr};
ghost use Rattle.assertions.specs.Hardness.{low, best_margin};
ghost use Rattle.set_tallies.specs.Bags.{IsOf};
ghost use Rattle.irv_tabulator.specs.Results.{IsTabulation};
ghost use Rattle.certifier.specs.Certified.{IsCertified, IsFault};
ghost use Rattle.certifier.specs.Gathered.{claim_at};
ghost use Rattle.irv_base.specs.declared.limits.TheConstants.{MOST_WORKERS};

use crate::fault::CertFault;
use crate::gather::Task;
use crate::team::gather_all;
use assertions::{Assertion, Claim};
use irv_base::{Memory, Order};
use irv_tabulator::Tabulated;
use set_tallies::Counted;
use std::alloc::Global;
use std::collections::BTreeMap;
use std::thread::Threads;

/// What is published about a contest to prove its winner.
#[derive(Drop)]
pub struct Certificate {
    /// The assertions and their margins, each once, in the fixed order. Together they refute each order that elects another candidate.
    pub claims: Vec<Claim>,
    /// The smallest of the margins, in votes. No set of assertions that refutes these orders has a larger one.
    pub margin: u32,
    /// The order that is the least, read backwards, of those that elect another candidate and that no true assertion of larger margin
    /// refutes.
    pub order: Order,
}

/// The claims as a list, in the fixed order.
pub fn listed(alloc: Global, claims: &BTreeMap<Assertion, u32>) -> Result<Vec<Claim>, Memory>
    ensures { IfOk result (λ list. list.items ≡ map claim_at claims.now.entries) }
{
    let mut list = Vec::new(alloc);
    for (assertion, margin) in claims {
        list.push(Claim {
            assertion: *assertion,
            margin: *margin,
        })?;
    }
    Ok(list)
}

/// The canonical certificate of the contest with these records, whose tabulated order is that of `tab` and whose best margin, in votes, is
/// `best`, which is above 0: ways of breaking ties don't change the winner. The certificate depends only on the records, whichever search
/// found the best margin and whatever the number of workers.
///
/// For each alternative winner two counts are taken of suffixes that end in that candidate and aren't whole orders. The first counts those
/// whose low is below the best margin. The second counts those whose low is at most the best margin and that come before the certificate's
/// order, both read backwards. The answer is `Spent`, with the lowest-numbered alternative winner for whom a count is above `nodes`, exactly if there
/// is one. The other error means that memory ran out.
///
/// The alternative winners are divided among the workers, each with its own tallies. A worker goes into each set of candidates once for
/// each of the two counts, whichever candidate is last. Besides its claims, it holds the numbers that it counted from these sets on and, at
/// any one time, one suffix of each length.
/// these sets on and, at one time, one suffix of each length.
pub fn certify<R: AllocGlobal + Threads + Sync>(
    rt: &R,
    counted: &Counted,
    tab: &Tabulated,
    best: u32,
    workers: u32,
    nodes: u32,
) -> Result<Certificate, CertFault>
    requires tabulated { (records : List (List ℕ)) → IsOf counted.now.bag records
        → IsTabulation counted.now.bag.n records tab.now }
    requires best { (records : List (List ℕ)) → IsOf counted.now.bag records
        → best ≡ best_margin counted.now.bag.n tab.now.winner (low counted.now.bag.n records) }
    requires positive { 1 ≤ best }
    requires workers { (1 ≤ workers) × (workers ≤ MOST_WORKERS) }
    ensures certificate { (records : List (List ℕ)) → IsOf counted.now.bag records
        → IfOk result (IsCertified counted.now.bag.n records tab.now.winner best nodes) }
    ensures fault { (records : List (List ℕ)) → IsOf counted.now.bag records
        → IfErr result (IsFault counted.now.bag.n records tab.now.winner best nodes) }
{
    let task = Task {
        winner: tab.winner,
        best,
        nodes,
    };
    let found = gather_all(rt, &task, counted, workers)?;
    if let Some(last) = found.spent() {
        return Err(CertFault::Spent { last });
    }
    let claims = found.claims.listed(rt.alloc())?;
    // Some alternative order has the best margin, so an order was found.
    let order = found.order().unwrap_or(tab.order);
    Ok(Certificate {
        claims,
        margin: best,
        order,
    })
}

// A walk through the suffixes that end in a given one, as far as their low is below a limit.
//
// Below a suffix whose low is below the limit, what reaches the limit, and by which refuter, depends only on the suffix's set (laws
// `low_by_steps` and `refuter_by_steps`). So once a walk has gone through a set, it notes the number of suffixes that count from the set
// on, and the next suffix of this set adds that number. The refuters are already among the claims. A set is noted when its walk has ended,
// so no whole order is below it.
ghost use Rattle.std.specs.Prelude.{◌≡◌, ◌≤◌, ℕ, List, if◌then◌else◌, IfOk, OnOk};
ghost use Rattle.set_tallies.specs.Bags.{IsOf};
ghost use Rattle.certifier.specs.Walks.{CanWalk, IsWalk, walk_of, walked_on, OnCounted, IsFrom, HasGathered};
ghost use Rattle.certifier.specs.Gathered.{with_score};
ghost use Rattle.certifier.specs.Known.{AreKnown};

use crate::claims::Claims;
use crate::counts::Counts;
use crate::fault::CertFault;
use assertions::Assertion;
use irv_base::{Candidate, Memory, Order};
use set_tallies::Tallies;
use suffix_tree::{Scored, child};

/// Which suffixes a walk goes through, and how far it goes.
#[derive(Clone, Copy)]
pub struct Reach {
    /// The candidate that the suffixes end in.
    pub last: Candidate,
    /// The low of the suffixes is below this number of votes.
    pub limit: u64,
    /// At most this many suffixes may count.
    pub nodes: u32,
    /// Whether the refuters of the walk's ends are put among the claims.
    pub keeps: bool,
}

/// How a walk ends.
#[derive(Drop)]
pub enum WalkEnd {
    /// The walk reaches no whole order, and this many suffixes count.
    Counted(u32),
    /// The first whole order that the walk reaches.
    Found(Order),
}

// Puts the suffix's refuter, with its margin, among the claims, if the walk keeps refuters.
fn put(claims: &mut Claims, reach: &Reach, s: &Scored) -> Result<(), Memory>
    ensures { OnOk result (claims.new
        ≡ (if reach.now.keeps
        then with_score ⟦<Assertion as Ord>⟧.cmp claims.old
        (record { low = s.now.low; by = s.now.by })
        else claims.old)) }
{
    if !reach.keeps {
        return Ok(());
    }
    if let Some(by) = s.by {
        claims.put(by, s.low)?;
    }
    Ok(())
}

// How a walk ends at a suffix that it doesn't go into, when this many suffixes count from it on.
fn pass(reach: &Reach, count: u32, number: u32) -> Result<WalkEnd, CertFault>
    requires { count ≤ reach.now.nodes }
    ensures walk { IsWalk reach.now.last result (walked_on reach.now.nodes count number) }
    ensures counted { IfOk result (IsFrom count) }
{
    if number > reach.nodes - count {
        return Err(CertFault::Spent { last: reach.last });
    }
    Ok(WalkEnd::Counted(count + number))
}

/// Walks the suffixes that end in this one, as far as their low is below the limit, up to the first whole order, and adds the suffixes that
/// it passes to the count. The ends are the first suffixes that reach the limit. If the walk keeps refuters, the refuters of the ends are
/// put among the claims.
///
/// The walk goes into each set of candidates once. For a set that is noted, it adds the set's count, and the refuters of the ends are
/// already among the claims.
pub fn walk(
    s: &Scored,
    reach: &Reach,
    count: u32,
    counts: &mut Counts,
    claims: &mut Claims,
    tallies: &mut Tallies,
) -> Result<WalkEnd, CertFault>
    requires ready { CanWalk tallies.old.bag reach.now.limit s.now }
    requires known { AreKnown tallies.old.bag reach.now.limit reach.now.keeps counts.old
        claims.old }
    ensures walk { (records : List (List ℕ)) → IsOf tallies.old.bag records
        → IsWalk reach.now.last result (walk_of reach.now s.now records count) }
    ensures claims { IfOk result (λ walk. OnCounted walk
        (HasGathered tallies.old.bag reach.now s.now claims.old claims.new)) }
    ensures known { OnOk result (AreKnown tallies.old.bag reach.now.limit reach.now.keeps
        counts.new claims.new) }
    ensures counted { IfOk result (IsFrom count) }
    ensures same { tallies.new ≡ tallies.old }
{
    if u64::from(s.low) >= reach.limit {
        put(claims, reach, s)?;
        return Ok(WalkEnd::Counted(count));
    }
    if let Some(order) = s.tail.whole() {
        return Ok(WalkEnd::Found(order));
    }
    if count >= reach.nodes {
        return Err(CertFault::Spent { last: reach.last });
    }
    let set = s.tail.set();
    if let Some(number) = counts.of(set) {
        return pass(reach, count, number);
    }
    let mut seen = count + 1;
    for c in 0..s.tail.candidates() {
        let front = Candidate(c as u8);
        if !s.tail.has(front) {
            let longer = child(s, front, tallies)?;
            match walk(&longer, reach, seen, counts, claims, tallies)? {
                WalkEnd::Counted(more) => seen = more,
                WalkEnd::Found(order) => return Ok(WalkEnd::Found(order)),
            }
        }
    }
    counts.note(set, seen - count)?;
    Ok(WalkEnd::Counted(seen))
}

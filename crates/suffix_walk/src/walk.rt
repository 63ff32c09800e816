// A walk through the suffixes, in the order of the suffixes read backwards, up to the first whole order that is kept.
ghost use Rattle.std.specs.Prelude.{◌≡◌, ◌<◌, ◌≤◌, length, IsTrue};
ghost use Rattle.irv_base.specs.Suffixes.{is_suffix};
ghost use Rattle.irv_base.specs.declared.limits.TheConstants.{ROOM};
ghost use Rattle.suffix_walk.specs.Kept.{is_parent_kept, all_ending};
ghost use Rattle.suffix_walk.specs.Walks.{walked};
ghost use Rattle.suffix_walk.specs.Search.{stopped_at, first_within};

use crate::Keeps;
use irv_base::{Candidate, Order, Suffix};

/// Why a walk stops before its end.
#[derive(Drop)]
pub enum Stop {
    /// The test keeps a whole order.
    Found(Order),
    /// The test keeps more suffixes than the budget allows.
    Spent,
}

// Walks the suffixes that end in this one, and adds to the count those that are kept and aren't whole orders.
fn walk<T: Keeps>(test: &T, n: u32, nodes: u32, suffix: &Suffix, count: u32) -> Result<u32, Stop>
    requires size { n ≡ T.size test.now }
    requires number { 1 ≤ n }
    requires room { n ≤ ROOM }
    requires proper { IsTrue (is_suffix n suffix.now) }
    requires some { 0 < length suffix.now }
    requires parent { IsTrue (is_parent_kept (T.kept test.now) suffix.now) }
    requires left { count ≤ nodes }
    ensures { result ≡ walked n nodes (T.kept test.now) count (all_ending n suffix.now) }
{
    if !test.keeps(suffix) {
        return Ok(count);
    }
    if let Some(order) = suffix.whole(n) {
        return Err(Stop::Found(order));
    }
    if count >= nodes {
        return Err(Stop::Spent);
    }
    let mut seen = count + 1;
    for c in 0..n as u8 {
        if !suffix.contains(Candidate(c)) {
            seen = walk(test, n, nodes, &suffix.with(Candidate(c)), seen)?;
        }
    }
    Ok(seen)
}

// The order that was found, or the candidate that the walk's suffixes end in.
fn stopped(stop: Stop, last: Candidate) -> Result<Option<Order>, Candidate>
    ensures { result ≡ stopped_at last stop }
{
    match stop {
        Stop::Found(order) => Ok(Some(order)),
        Stop::Spent => Err(last),
    }
}

/// The least order, read backwards, that the test keeps and that elects a candidate other than the winner, or none.
///
/// A suffix counts for the candidate it elects if it is kept, isn't a whole order, and comes before that order, both read backwards. If
/// more than `nodes` suffixes count for a candidate, the error is the least candidate for whom they do.
pub fn first_within<T: Keeps>(
    test: &T,
    n: u32,
    winner: Candidate,
    nodes: u32,
) -> Result<Option<Order>, Candidate>
    requires size { n ≡ T.size test.now }
    requires some { 1 ≤ n }
    requires room { n ≤ ROOM }
    ensures { result ≡ first_within n winner nodes (T.kept test.now) }
{
    for c in 0..n as u8 {
        let last = Candidate(c);
        if last != winner {
            match walk(test, n, nodes, &Suffix::of(last), 0) {
                Ok(_count) => {}
                Err(stop) => return stopped(stop, last),
            }
        }
    }
    Ok(None)
}

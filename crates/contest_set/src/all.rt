// The audit of all contests.
ghost use Rattle.std.specs.Prelude.{◌≡◌, ◌≤◌, ◌<◌, List, length, None, IfOk, IfErr, OnOk};
ghost use Rattle.ballots.specs.Ballots.{BallotFile};
ghost use Rattle.ballots.specs.declared.limits.TheConstants.{MOST_CONTESTS};
ghost use Rattle.manifest.specs.Cards.{Batches};
ghost use Rattle.seen_file.specs.Seen.{Entry};
ghost use Rattle.contest_set.specs.Ends.{AreEnds, AreWithinLimits};
ghost use Rattle.contest_set.specs.Refusals.{AreResults, HasResult, IsSetFault, LacksCard, IsJoinFault, first_without_card_of_all};
ghost use Rattle.contest_set.specs.declared.terms.SharedTerms.{SharedTerms as TheTerms};

use crate::end::ContestEnd;
use crate::fault::SetFault;
use crate::one::audit_one;
use crate::terms::SharedTerms;
use ballots::Ballots;
use desk::Gate;
use irv_base::Memory;
use manifest::{Manifest, link};
use seen_file::SeenCards;
use std::alloc::Global;
use std::thread;
use std::thread::Threads;

// Checks that each ballot of each contest has a card.
fn see_cards(alloc: Global, m: &Manifest, list: &[Ballots]) -> Result<(), SetFault>
    ensures linked { OnOk result (first_without_card_of_all m.now list.now ≡ None) }
    ensures refused { IfErr result (LacksCard (first_without_card_of_all m.now list.now)) }
{
    for ballots in list {
        if let Err(fault) = link(alloc, m, ballots) {
            return Err(SetFault::from(fault));
        }
    }
    Ok(())
}

// Returns a place for the end of each of this many contests. A place holds an `Err` until its contest is looked at.
fn places(alloc: Global, contests: usize) -> Result<Vec<Result<ContestEnd, SetFault>>, Memory>
    ensures { IfOk result (λ places. length places.items ≡ contests) }
{
    let mut places = Vec::with_capacity(alloc, contests)?;
    for _contest in 0..contests {
        places.push(Err(SetFault::Memory))?;
    }
    Ok(places)
}

// Audits the contest at a place, and returns how that ends.
fn end_at<R: AllocGlobal + Threads + Sync, G: Gate + Sync>(
    rt: &R,
    place: usize,
    list: &[Ballots],
    m: &Manifest,
    seen: &[SeenCards],
    terms: &SharedTerms,
    gate: &G,
) -> Result<ContestEnd, SetFault>
    requires within { place < length list.now }
    requires few { length list.now ≤ MOST_CONTESTS }
    requires seen { length seen.now ≡ length list.now }
    requires terms { AreWithinLimits terms.now }
    requires linked { first_without_card_of_all m.now list.now ≡ None }
    ensures { HasResult m.now terms.now list.now seen.now place result }
{
    let ballots = &list[place];
    let entries = &seen[place];
    audit_one(rt, place as u32, ballots, m, entries, terms, gate)
}

// Lets each worker audit its share of the contests.
fn run<R: AllocGlobal + Threads + Sync, G: Gate + Sync>(
    rt: &R,
    list: &[Ballots],
    m: &Manifest,
    seen: &[SeenCards],
    terms: &SharedTerms,
    gate: &G,
    places: &mut [Result<ContestEnd, SetFault>],
)
    requires each { length places.old ≡ length list.now }
    requires few { length list.now ≤ MOST_CONTESTS }
    requires seen { length seen.now ≡ length list.now }
    requires terms { AreWithinLimits terms.now }
    requires linked { first_without_card_of_all m.now list.now ≡ None }
    ensures len { length places.new ≡ length places.old }
    ensures results { AreResults m.now terms.now list.now seen.now places.new }
{
    thread::for_each_mut(
        rt,
        places,
        terms.workers as usize,
        &|i, place: &mut Result<ContestEnd, SetFault>|
            requires { (i < length list.now) × (length list.now ≤ MOST_CONTESTS)
                × (length seen.now ≡ length list.now) × AreWithinLimits terms.now
                × (first_without_card_of_all m.now list.now ≡ None) }
            ensures { HasResult m.entry.now terms.entry.now list.entry.now seen.entry.now i
                place.exit.now }
        { *place = end_at(rt, i, list, m, seen, terms, gate) },
    );
}

// The ends of all contests, or the first fault.
fn joined(
    alloc: Global,
    places: Vec<Result<ContestEnd, SetFault>>,
) -> Result<Vec<ContestEnd>, SetFault>
    ensures ends { IfOk result (λ ends. (batches : Batches) (terms : TheTerms)
        (list : List BallotFile) (seen : List (List Entry))
        → length places.items ≡ length list → length seen ≡ length list
        → AreResults batches terms list seen places.items
        → AreEnds batches terms list seen ends.items) }
    ensures fault { IfErr result (λ fault. (batches : Batches) (terms : TheTerms)
        (list : List BallotFile) (seen : List (List Entry))
        → length places.items ≡ length list → length seen ≡ length list
        → AreResults batches terms list seen places.items
        → IsJoinFault batches terms list seen fault) }
{
    let mut ends = Vec::with_capacity(alloc, places.len())?;
    for place in places {
        match place {
            Ok(end) => ends.push(end)?,
            Err(fault) => return Err(fault),
        }
    }
    Ok(ends)
}

/// Audits all contests on one sample of cards: returns how each of them ends, in order, if this is seen of the cards for each.
///
/// It is refused if a ballot has no card, at the first such ballot of the first contest with one. Otherwise it is refused if a contest
/// that has a winner lacks a record of a drawn card, at the first such contest and draw. A contest that is tied, or out of budget, doesn't
/// stop the others.
///
/// Each of at most this many workers audits a share of the contests, one by one. The gate is called with the contest's place in the file,
/// from 0, instead of the worker's number.
pub fn audit_all<R: AllocGlobal + Threads + Sync, G: Gate + Sync>(
    rt: &R,
    list: &[Ballots],
    m: &Manifest,
    seen: &[SeenCards],
    terms: &SharedTerms,
    gate: &G,
) -> Result<Vec<ContestEnd>, SetFault>
    requires few { length list.now ≤ MOST_CONTESTS }
    requires seen { length seen.now ≡ length list.now }
    requires terms { AreWithinLimits terms.now }
    ensures linked { IfOk result (λ _. first_without_card_of_all m.now list.now ≡ None) }
    ensures ends { IfOk result (λ ends. AreEnds m.now terms.now list.now seen.now ends.items) }
    ensures refused { IfErr result (IsSetFault m.now terms.now list.now seen.now) }
{
    let alloc = rt.alloc();
    see_cards(alloc, m, list)?;
    let mut places = places(alloc, list.len())?;
    run(rt, list, m, seen, terms, gate, places.as_mut_slice());
    joined(alloc, places)
}

// The share of one worker.
ghost use Rattle.std.specs.Prelude.{◌≡◌, ◌≤◌, ◌++◌, ◌∷◌, [], All, false, IfOk, IsTrue, OnOk, length, if◌then◌else◌};
ghost use Rattle.shared_witness.specs.Race.{new_seat};
ghost use Rattle.bound_search.specs.Reached.{HoldsPiece, IsPieceSearched, IsWorkerEnd, skipped_with, spent_with};
ghost use Rattle.bound_search.specs.declared.limits.TheConstants.{MOST_PIECES};

use crate::ends::{PieceEnd, WorkerEnd};
use crate::piece::{Searched, search};
use desk::Gate;
use irv_base::Memory;
use set_tallies::Tallies;
use shared_witness::{Race, RaceSeat};
use std::alloc::Global;
use std::marker::Brand;
use std::sync::ledger::Blank;
use suffix_tree::Tail;

// Notes the piece if it was left open: as out of budget if none was before, and as skipped otherwise.
fn note(
    spent: &mut Vec<u32>,
    skipped: &mut Vec<u32>,
    piece: u32,
    closed: bool,
) -> Result<(), Memory>
    requires cause { spent.old.items ≡ [] → skipped.old.items ≡ [] }
    ensures left { OnOk result (spent.new.items ++ skipped.new.items
        ≡ (if closed then spent.old.items ++ skipped.old.items
        else (spent.old.items ++ skipped.old.items) ++ piece ∷ [])) }
    ensures spent { OnOk result (spent.new.items
        ≡ spent_with closed spent.old.items piece) }
    ensures skipped { OnOk result (skipped.new.items
        ≡ skipped_with closed spent.old.items skipped.old.items piece) }
{
    if closed {
        return Ok(());
    }
    if spent.is_empty() {
        spent.push(piece)?;
    } else {
        skipped.push(piece)?;
    }
    Ok(())
}

// Searches the piece, or skips it. In a contract, a skipped piece was left open.
fn search_or_skip(
    alloc: Global,
    race: &Race,
    seat: &mut RaceSeat,
    piece: u32,
    tail: &Tail,
    nodes: u32,
    tallies: &mut Tallies,
    skip: bool,
) -> Result<Searched, Memory>
    requires contest { tail.now.n ≡ tallies.old.bag.n }
    requires holds { HoldsPiece race.now seat.old piece }
    ensures race { seat.new.race ≡ race.now.id }
    ensures searched { IfOk result (IsPieceSearched tallies.old.bag race.now.terms.first nodes
        piece tail.now.list skip seat.old.view seat.new.view) }
    ensures idle { IsTrue skip → IfOk result (λ s. (s.closed ≡ false) × (s.expanded ≡ 0)) }
    ensures same { tallies.new ≡ tallies.old }
{
    if skip {
        return Ok(Searched::skipped());
    }
    let searched = search::<Brand>(
        alloc,
        Blank::new(1),
        race,
        seat,
        piece,
        tail,
        nodes,
        tallies,
    )?;
    Ok(searched)
}

/// Runs the share of one worker of a race: it takes a piece, searches it, and takes the next, until none is left. Once a piece is
/// out of budget, so is the race, and the worker skips the pieces that it takes afterwards. For each piece that it takes, it first
/// calls the gate.
///
/// `tails` are the pieces of the race in the order of their numbers, each given by the suffix in which its orders end. The seat is
/// a seat of the race that has done nothing yet. Each piece has the whole budget of `nodes` suffixes. The only error is lack of
/// memory.
pub fn work<G: Gate + Sync>(
    alloc: Global,
    race: &Race,
    seat: &mut RaceSeat,
    worker: u32,
    tails: &[Tail],
    nodes: u32,
    tallies: &mut Tallies,
    gate: &G,
) -> Result<WorkerEnd, Memory>
    requires seat { seat.old ≡ new_seat race.now }
    requires pieces { race.now.terms.pieces ≡ length tails.now }
    requires few { length tails.now ≤ MOST_PIECES }
    requires contest { All (λ tail. tail.n ≡ tallies.old.bag.n) tails.now }
    ensures race { seat.new.race ≡ race.now.id }
    ensures end { IfOk result (IsWorkerEnd tallies.old.bag race.now.terms.first nodes worker
        tails.now seat.new.view) }
    ensures same { tallies.new ≡ tallies.old }
{
    let mut best = None;
    let mut ends = Vec::new(alloc);
    let mut spent = Vec::new(alloc);
    let mut skipped = Vec::new(alloc);
    let mut looks = 0u64;
    for _turn in 0..=tails.len() {
        let piece = race.take(seat);
        if piece as usize == tails.len() {
            return Ok(WorkerEnd {
                best,
                ends,
                spent,
                skipped,
                looks,
            });
        }
        let tail = tails[piece as usize];
        gate.at(worker, piece);
        let is_spent = !spent.is_empty();
        let searched = search_or_skip(alloc, race, seat, piece, &tail, nodes, tallies, is_spent)?;
        looks += searched.looks;
        best = searched.found.or(best);
        note(&mut spent, &mut skipped, piece, searched.closed)?;
        ends.push(PieceEnd {
            piece,
            tail,
            worker,
            expanded: searched.expanded,
        })?;
    }
    unreachable!()
}

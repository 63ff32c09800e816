// Tabulation, round by round.
ghost use Rattle.std.specs.Prelude.{◌≡◌, ℕ, ◌≤◌, ◌-◌, List, nat_lt, sum, IfOk};
ghost use Rattle.irv_base.specs.Candidates.{has};
ghost use Rattle.irv_base.specs.declared.limits.TheConstants.{ROOM};
ghost use Rattle.set_tallies.specs.Bags.{IsOf};
ghost use Rattle.irv_tabulator.specs.Results.{IsTabulation};
ghost use Rattle.irv_tabulator.specs.Rounds.{Notes};

use crate::fault::TabFault;
use crate::least::{lowest, sharing, votes};
use crate::tabulated::{Round, Tabulated};
use irv_base::{CandSet, Candidate, Memory, Order, ROOM};
use set_tallies::Tallies;
use std::alloc::Global;

fn all_of(n: u32) -> CandSet
    requires { n ≤ ROOM }
    ensures { (c : ℕ) → has result c ≡ nat_lt c n }
{
    let mut all = CandSet::empty();
    for c in 0..n {
        all = all.with(Candidate(c as u8));
    }
    all
}

// The number of records that none of these tallies counts.
fn uncounted(row: &[u32], records: u32) -> u32
    ensures { result ≡ records - sum row.now }
{
    let mut left = records;
    for votes in row {
        left = left.saturating_sub(*votes);
    }
    left
}

fn note(rounds: &mut Vec<Round>, row: Vec<u32>, exhausted: u32, tied: CandSet) -> Result<(), Memory>
    ensures { IfOk result (λ _. Notes rounds.old.items
        (record { votes = row.items; exhausted = exhausted; tied = tied }) rounds.new.items) }
{
    let round = Round {
        tallies: row,
        exhausted,
        tied,
    };
    rounds.push(round)?;
    Ok(())
}

/// Returns the tabulated order of the contest of the tallies, with its rounds.
pub fn tabulate(alloc: Global, tallies: &mut Tallies<'_>) -> Result<Tabulated, TabFault>
    ensures tabulated { (records : List (List ℕ)) → IsOf tallies.old.bag records
        → IfOk result (IsTabulation tallies.old.bag.n records) }
    ensures same { tallies.new ≡ tallies.old }
{
    let n = tallies.candidates();
    let records = tallies.records();
    let mut rounds = Vec::new(alloc);
    let mut remaining = all_of(n);
    let mut places = [0u8; ROOM as usize];
    for round in 1..n {
        let row = tallies.tally(remaining)?;
        let counts = row.as_slice();
        let loser = lowest(counts, remaining);
        let tied = sharing(counts, remaining, votes(counts, loser));
        places[round as usize - 1] = loser.0;
        remaining = remaining.without(loser);
        let exhausted = uncounted(counts, records);
        note(&mut rounds, row, exhausted, tied)?;
    }
    let winner = remaining.nth(0);
    places[n as usize - 1] = winner.0;
    match Order::read(n, &places[..n as usize]) {
        Ok(order) => Ok(Tabulated {
            order,
            winner,
            rounds,
        }),
        Err(_) => unreachable!(),
    }
}

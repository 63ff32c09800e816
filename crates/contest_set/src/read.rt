// Reading what is seen of cards for several contests.
ghost use Rattle.std.specs.Prelude.{◌≡◌, ◌<◌, ◌++◌, ◌∷◌, [], List, slice_get, slice_set, replicate, length, None, Some, Ok, IfOk, IfErr, OnOk, IsTrue};
ghost use Rattle.irv_base.specs.Names.{all_differ};
ghost use Rattle.file_fault.specs.Refusals.{Refuses};
ghost use Rattle.seen_file.specs.Seen.{Entry, seen_in};
ghost use Rattle.contest_set.specs.SeenBy.{contest_ids, seen_by};

use crate::record::{Told, told_of};
use ballots::Ballots;
use csv::ByteRecord;
use csv_rows::{Rows, without_mark};
use irv_base::Memory;
use manifest::Manifest;
use seen_file::{SeenCards, SeenFault};
use std::alloc::Global;

// For each of this many contests, a list on which nothing is seen yet.
fn nothing_seen(alloc: Global, contests: usize) -> Result<Vec<SeenCards>, Memory>
    ensures { IfOk result (λ seen. seen.items ≡ replicate contests []) }
{
    let mut seen = Vec::with_capacity(alloc, contests)?;
    for _ in 0..contests {
        seen.push(SeenCards::new(alloc))?;
    }
    Ok(seen)
}

// Adds a new card, with what is seen of it for its contest.
fn put(seen: &mut Vec<SeenCards>, told: Told) -> Result<(), Memory>
    requires { told.place < length seen.now.items }
    ensures { OnOk result ((entries : List Entry)
        → slice_get seen.old.items told.place ≡ Some entries → seen_in entries told.card ≡ None
        → seen.new.items
        ≡ slice_set seen.old.items told.place (entries ++ (told.card, told.seen) ∷ [])) }
{
    seen[told.place].put(told.card, told.seen)?;
    Ok(())
}

/// Reads a seen file whose records are of several contests, and returns what is seen of the cards for each contest, in order.
///
/// Each record is the id of a card, the id of a contest, and then either `missing`, or `ballot` with candidates' ids in order of
/// preference, as in a ballot file. Spaces and tabs around a field are removed. If the only field of a record is then empty, the record is
/// skipped and has no number. A byte order mark at the front is removed.
///
/// It is refused by the first rule that a record breaks, in this order: V1 if it has fewer than three fields, another word, or a field
/// that isn't blank after `missing`; V2 if its card isn't in the manifest; V6 if its contest isn't among them; V3 if an earlier record
/// has its card with the same contest; V5 if a preference isn't a candidate of its contest.
pub fn read_seen_by(
    alloc: Global,
    bytes: &[u8],
    m: &Manifest,
    list: &[Ballots],
) -> Result<Vec<SeenCards>, SeenFault>
    requires differ { IsTrue (all_differ (contest_ids list.now)) }
    ensures read { IfOk result (λ seen. seen_by m.now list.now bytes.now ≡ Ok seen.items) }
    ensures one_each { IfOk result (λ seen. length seen.items ≡ length list.now) }
    ensures refused { IfErr result (Refuses (seen_by m.now list.now bytes.now)) }
{
    let mut rows = Rows::of(alloc, without_mark(bytes));
    let mut row = ByteRecord::new(alloc);
    let mut seen = nothing_seen(alloc, list.len())?;
    let mut at = 1;
    'records: while rows.read_numbered(&mut row)? {
        let told = match told_of(m, list, &seen, &row) {
            Ok(told) => told,
            Err(rule) => return Err(SeenFault::at_record(rule, at)),
        };
        put(&mut seen, told)?;
        if at == u32::MAX {
            return Err(SeenFault::Memory);
        }
        at += 1;
    }
    Ok(seen)
}

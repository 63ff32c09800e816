// Reading a seen file.
ghost use Rattle.std.specs.Prelude.{◌≡◌, ◌≤◌, [], Ok, IfOk, IfErr, length};
ghost use Rattle.irv_base.specs.declared.limits.TheConstants.{ROOM};
ghost use Rattle.file_fault.specs.Refusals.{Refuses};
ghost use Rattle.seen_file.specs.Reading.{seen_of};

use crate::fault::SeenFault;
use crate::record::entry_of;
use crate::seen_cards::SeenCards;
use csv::ByteRecord;
use csv_rows::{Rows, without_mark};
use irv_base::Name;
use manifest::Manifest;
use std::alloc::Global;

/// Reads a seen file.
///
/// Each record is the id of a card, followed by `ballot` and the ids of candidates in order of preference, as in a ballot file, or followed
/// by `missing`. Spaces and tabs around a field are removed. If the only field of a record is then empty, the record is skipped and has no
/// number. A byte order mark at the front is removed.
///
/// A file is refused by the first rule that a record breaks, in this order: V1 if the record has fewer than two fields, another word, or a
/// field that isn't blank after `missing`; V2 if its card isn't in the manifest; V3 if an earlier record has its card; V5 if a preference
/// isn't a candidate.
pub fn read_seen(
    alloc: Global,
    bytes: &[u8],
    manifest: &Manifest,
    candidates: &[Name],
) -> Result<SeenCards, SeenFault>
    requires { length candidates.now ≤ ROOM }
    ensures read { IfOk result (λ seen. seen_of manifest.now candidates.now bytes.now ≡ Ok seen) }
    ensures refused { IfErr result (Refuses (seen_of manifest.now candidates.now bytes.now)) }
{
    // Calls this for what its contract says: there are few enough cards to count the records in a u32.
    let _cards = manifest.cards();
    let mut rows = Rows::of(alloc, without_mark(bytes));
    let mut row = ByteRecord::new(alloc);
    let mut seen = SeenCards::new(alloc);
    let mut at = 1;
    'records: while rows.read_numbered(&mut row)? {
        let (card, of) = match entry_of(manifest, candidates, &seen, &row) {
            Ok(entry) => entry,
            Err(rule) => return Err(SeenFault::at_record(rule, at)),
        };
        seen.put(card, of)?;
        at += 1;
    }
    Ok(seen)
}

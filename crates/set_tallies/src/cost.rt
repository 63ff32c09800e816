// The cost of rows of tallies, compared with the sums over all sets.
//
// Which form suits a contest shows in the time that its rows have taken. A worker counts as many rows as take at most half of the
// time of the sums, then gives up as if memory had run out. The sums are made once, and all workers begin again with them. No
// answer depends on this. A limit of nodes would say less, since the time for a node depends on the number of entries.
ghost use Rattle.std.specs.Prelude.{◌≤◌};
ghost use Rattle.set_tallies.specs.declared.sums.TheConstants.{MOST_SUMMED};

use crate::entries::Entries;
use crate::entry::Entry;

/// This many entries are read for each set and candidate before the sums over all sets are made. For each set and candidate, the
/// sums take as long as reading twice as many entries, so rows take at most half of the time of the sums that are made after all.
pub const ENTRIES_A_NUMBER: u64 = 16;

/// This many are read if the sums are large. Rows then take at most about as long as the sums, and most searches end before the
/// sums are made.
pub const ENTRIES_A_LARGE_NUMBER: u64 = 48;

/// From this many candidates on, sums that aren't halved are large: they use some 40 megabytes or more.
pub const FEWEST_LARGE: u32 = 19;

/// In addition to its entries, a row takes as long as reading this many more.
pub const ENTRIES_A_ROW: u64 = 2048;

/// The number of entries noted for all candidates.
pub fn count_of_noted(noted: &[Vec<Entry>]) -> u64 {
    let mut count = 0u64;
    for entries in noted {
        count = count.saturating_add(entries.len() as u64);
    }
    count
}

/// The number of entries of all candidates.
pub fn count_of(lists: &[Entries]) -> u64 {
    let mut count = 0u64;
    for entries in lists {
        count = count.saturating_add(entries.len() as u64);
    }
    count
}

// The number of entries that are read for each set and candidate before the sums are made.
fn entries_a_number(n: u32, halved: bool) -> u64 {
    if n >= FEWEST_LARGE && !halved {
        ENTRIES_A_LARGE_NUMBER
    } else {
        ENTRIES_A_NUMBER
    }
}

/// The number of rows of tallies that are counted from this many entries before the sums over all sets, halved or not, are made.
pub fn rows_in_time(n: u32, entries: u64, halved: bool) -> u64
    requires { n ≤ MOST_SUMMED }
{
    let numbers = u64::from(n) << n;
    numbers.saturating_mul(entries_a_number(n, halved)) / entries.saturating_add(ENTRIES_A_ROW)
}

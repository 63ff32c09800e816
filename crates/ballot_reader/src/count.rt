// The first record: the number of contests.
ghost use Rattle.std.specs.Prelude.{◌≡◌};
ghost use Rattle.ballots.specs.Grammar.{contest_count, number_up_to};

use ballots::MOST_CONTESTS;
use csv_rows::{Fields, number_of};

/// The number that is written this way, if it is from 1 to `most`.
pub fn number_up_to(most: u32, text: &[u8]) -> Option<u32>
    ensures { result ≡ number_up_to most text.now }
{
    match number_of(text) {
        Some(n) if (1..=u64::from(most)).contains(&n) => Some(n as u32),
        _ => None,
    }
}

/// The number of contests that a record's first field names.
pub fn contest_count(mut fields: Fields<'_>) -> Option<u32>
    ensures { result ≡ contest_count fields.entry }
{
    let Some(number) = fields.next() else {
        return None;
    };
    number_up_to(MOST_CONTESTS, number)
}

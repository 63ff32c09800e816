// Numbers in a file.
ghost use Rattle.std.specs.Prelude.{◌≡◌};
ghost use Rattle.std.specs.Char.{is_ascii_digit};
ghost use Rattle.std.specs.List.{list_all};
ghost use Rattle.csv_rows.specs.Numbers.{number_of};

use irv_base::MOST_NUMBER_DIGITS;

fn are_digits(text: &[u8]) -> bool
    ensures { result ≡ list_all is_ascii_digit text.now }
{
    text.iter().all(|b| b.is_ascii_digit())
}

/// The number that is written in 1 to `MOST_NUMBER_DIGITS` digits, with leading zeros allowed, or none if the text is anything else.
pub fn number_of(text: &[u8]) -> Option<u64>
    ensures { result ≡ number_of text.now }
{
    if text.is_empty() || text.len() > MOST_NUMBER_DIGITS {
        return None;
    }
    if !are_digits(text) {
        return None;
    }
    str::from_utf8(text).unwrap().parse::<u64>().ok()
}

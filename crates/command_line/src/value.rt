// The values of options.
ghost use Rattle.std.specs.Prelude.{◌≡◌, IsTrue};
ghost use Rattle.std.specs.Char.{is_ascii_digit};
ghost use Rattle.std.specs.List.{list_all};
ghost use Rattle.command_line.specs.Values.{is_number, is_number_within, number, is_value};

use crate::table::{BEST, ValueKind};
use irv_base::{MOST_NUMBER_DIGITS, Name};
use sampler::Seed;

fn are_digits(text: &[u8]) -> bool
    ensures { result ≡ list_all is_ascii_digit text.now }
{
    text.iter().all(|b| b.is_ascii_digit())
}

fn is_number(text: &str) -> bool
    ensures { result ≡ is_number text.now }
{
    !text.is_empty() && text.len() <= MOST_NUMBER_DIGITS && are_digits(text.as_bytes())
}

/// Reads a number that is written in 1 to `MOST_NUMBER_DIGITS` digits.
pub fn number(text: &str) -> u64
    requires { IsTrue (is_number text.now) }
    ensures { result ≡ number text.now }
{
    text.parse::<u64>().unwrap()
}

fn is_number_within(least: u32, most: u32, text: &str) -> bool
    ensures { result ≡ is_number_within least most text.now }
{
    is_number(text) && (u64::from(least)..=u64::from(most)).contains(&number(text))
}

impl ValueKind {
    /// Whether the text is a value of this kind.
    pub fn is_value(self, text: &str) -> bool
        ensures { result ≡ is_value self text.now }
    {
        match self {
            ValueKind::Id => Name::read(text.as_bytes()).is_some(),
            ValueKind::Seed => Seed::read(text).is_ok(),
            ValueKind::Number { least, most, .. } => is_number_within(least, most, text),
            ValueKind::FreeNumber { least, most } => is_number_within(least, most, text),
            ValueKind::NumberOrBest { least, most, .. } => {
                text == BEST || is_number_within(least, most, text)
            }
            ValueKind::Flag => text.is_empty(),
        }
    }
}

// The members of a JSON value that a claims file and its assertions need. No other members are looked at.
ghost use Rattle.std.specs.Prelude.{◌≡◌, option_map};
ghost use Rattle.serde_json.specs.View.{view};
ghost use Rattle.claims_file.specs.Stated.{heading_in, entry_in};
ghost use Rattle.claims_file.specs.Views.{stated_heading, stated_entry};

use assertion_file::{list_in, rest_in, text_in, texts_in};
use serde_json::Value;

/// The members of the file's object.
#[derive(Clone, Copy)]
pub struct Heading<'a> {
    /// Its assertions, each a value of any kind.
    pub assertions: &'a [Value],
    /// The ids of the candidates, all of them texts.
    pub candidates: &'a [Value],
    /// The contest's id.
    pub contest: &'a str,
    /// The winner's id.
    pub winner: &'a str,
}

/// The members of an assertion.
#[derive(Clone, Copy)]
pub struct Entry<'a> {
    /// The id of its winner.
    pub winner: &'a str,
    /// The id of its loser.
    pub loser: &'a str,
    /// For a NEN, the ids of the candidates left, all of them texts. A NEB has none.
    pub rest: Option<&'a [Value]>,
}

/// The members of a file, if all are there and of the right kind.
#[tactic(auto, unfolding(crate::specs::Stated::heading_in))]
pub fn heading_in(value: &Value) -> Option<Heading<'_>>
    ensures { option_map stated_heading result ≡ heading_in (view value.now) }
{
    Some(Heading {
        assertions: list_in(value, "assertions")?,
        candidates: texts_in(value, "candidates")?,
        contest: text_in(value, "contest")?,
        winner: text_in(value, "winner")?,
    })
}

/// The members of an assertion, if all are there and of the right kind.
#[tactic(auto, unfolding(crate::specs::Stated::entry_in))]
pub fn entry_in(value: &Value) -> Option<Entry<'_>>
    ensures { option_map stated_entry result ≡ entry_in (view value.now) }
{
    let kind = text_in(value, "kind")?;
    Some(Entry {
        winner: text_in(value, "winner")?,
        loser: text_in(value, "loser")?,
        rest: rest_in(kind, value)?,
    })
}

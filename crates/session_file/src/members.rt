// The members of a JSON value that a session and its rounds need.
ghost use Rattle.std.specs.Prelude.{◌≡◌, map, option_map};
ghost use Rattle.serde_json.specs.Find.{as_bool};
ghost use Rattle.serde_json.specs.View.{view};
ghost use Rattle.assertion_file.specs.Stated.{member_as};
ghost use Rattle.session_file.specs.Stated.{counts, counts_from, digest, digests_in, entry_in, heading_in, risk};
ghost use Rattle.session_file.specs.Views.{stated_entry, stated_heading};

use assertion_file::{Terms, list_in, number, number_in, terms_of, text_in};
use hex::FromHex;
use km_risk::Counts;
use serde_json::Value;
use session_state::Digests;

/// The members of a session's object.
#[derive(Clone, Copy)]
pub struct Heading<'a> {
    /// The id of the contest.
    pub contest: &'a str,
    /// The margin of each claim.
    pub margins: &'a [Value],
    /// The seed of the draws.
    pub seed: &'a str,
    /// The finished rounds.
    pub rounds: &'a [Value],
    /// Whether the file says that it is signed off.
    pub signed_off: bool,
    /// The version of the format.
    pub version: u32,
    /// The terms of the audit.
    pub terms: Terms,
    /// The digests of the files.
    pub digests: Digests,
}

/// The members of a round.
#[derive(Clone, Copy)]
pub struct Entry<'a> {
    /// The counts of each claim.
    pub counts: &'a [Value],
    /// The number of draws in total.
    pub draws: u32,
    /// The printed risk of each claim.
    pub risks: &'a [Value],
}

/// Returns the risk that the value is, in units of 10^-18.
pub fn risk(value: &Value) -> Option<u64>
    ensures { result ≡ risk (view value.now) }
{
    value.as_u64()
}

// The counts that these elements of a list are.
fn counts_from(values: &[Value]) -> Option<Counts>
    ensures { result ≡ counts_from (map view values.now) }
{
    let [n0, n1, n2, n3, n4] = values else {
        return None;
    };
    Some(Counts {
        n0: number(n0)?,
        n1: number(n1)?,
        n2: number(n2)?,
        n3: number(n3)?,
        n4: number(n4)?,
    })
}

/// Returns the counts that the value is: a list of five numbers.
pub fn counts(value: &Value) -> Option<Counts>
    ensures { result ≡ counts (view value.now) }
{
    counts_from(value.as_array()?.as_slice())
}

fn bool_in(value: &Value, name: &str) -> Option<bool>
    ensures { result ≡ member_as as_bool name.now (view value.now) }
{
    value.get(name)?.as_bool()
}

fn digest_in(value: &Value, name: &str) -> Option<[u8; 32]>
    ensures { result ≡ member_as digest name.now (view value.now) }
{
    <[u8; 32] as FromHex>::from_hex(text_in(value, name)?).ok()
}

#[tactic(auto, unfolding(crate::specs::Stated::digests_in))]
fn digests_in(value: &Value) -> Option<Digests>
    ensures { result ≡ digests_in (view value.now) }
{
    Some(Digests {
        assertions: digest_in(value, "assertions")?,
        ballots: digest_in(value, "ballots")?,
        manifest: digest_in(value, "manifest")?,
    })
}

/// Returns the members of a round, if all are present and of their kind.
#[tactic(auto, unfolding(crate::specs::Stated::entry_in))]
pub fn entry_in(value: &Value) -> Option<Entry<'_>>
    ensures { option_map stated_entry result ≡ entry_in (view value.now) }
{
    Some(Entry {
        counts: list_in(value, "counts")?,
        draws: number_in(value, "draws")?,
        risks: list_in(value, "risks")?,
    })
}

/// Returns the members of a session, if all are present and of their kind.
#[tactic(auto, unfolding(crate::specs::Stated::heading_in))]
pub fn heading_in(value: &Value) -> Option<Heading<'_>>
    ensures { option_map stated_heading result ≡ heading_in (view value.now) }
{
    Some(Heading {
        contest: text_in(value, "contest")?,
        margins: list_in(value, "margins")?,
        seed: text_in(value, "seed")?,
        rounds: list_in(value, "rounds")?,
        signed_off: bool_in(value, "signed_off")?,
        version: number_in(value, "version")?,
        terms: terms_of(value)?,
        digests: digests_in(value)?,
    })
}

// The words for what is wrong with a file of an audit.
ghost use Rattle.std.specs.Prelude.{◌≡◌, IfOk, string_bytes};
ghost use Rattle.session_rounds.specs.Refusals.{changed_text, counted_text, differs_text, digests_text, had_text};

use hex::encode;
use km_risk::Counts;
use report::counts_text;
use std::alloc::{AllocError, Global};

/// The text for a file that doesn't have the expected digest.
pub(crate) fn differs_text(
    alloc: Global,
    expected: &[u8; 32],
    found: &[u8; 32],
) -> Result<String, AllocError>
    ensures { IfOk result (λ text. string_bytes text ≡ differs_text expected.now found.now) }
{
    let expected = encode(alloc, expected)?;
    let found = encode(alloc, found)?;
    digests_text(alloc, expected.as_str(), found.as_str())
}

fn digests_text(alloc: Global, expected: &str, found: &str) -> Result<String, AllocError>
    ensures { IfOk result (λ text. string_bytes text ≡ digests_text expected.now found.now) }
{
    format!(in alloc; "S2 expected {expected} found {found}")
}

/// The text for a session that had this many draws.
pub(crate) fn had_text(alloc: Global, had: u32) -> Result<String, AllocError>
    ensures { IfOk result (λ text. string_bytes text ≡ had_text had) }
{
    format!(in alloc; "S4 had {had}")
}

/// The text for a round in which the counts of a claim aren't those that the session has.
pub(crate) fn changed_text(
    alloc: Global,
    round: u32,
    claim: u64,
    expected: &Counts,
    found: &Counts,
) -> Result<String, AllocError>
    ensures { IfOk result (λ text. string_bytes text
        ≡ changed_text round claim expected.now found.now) }
{
    let expected = counts_text(alloc, expected)?;
    let found = counts_text(alloc, found)?;
    counted_text(alloc, round, claim, expected.as_str(), found.as_str())
}

fn counted_text(
    alloc: Global,
    round: u32,
    claim: u64,
    expected: &str,
    found: &str,
) -> Result<String, AllocError>
    ensures { IfOk result (λ text. string_bytes text
        ≡ counted_text round claim expected.now found.now) }
{
    format!(in alloc; "S3 round {round} claim {claim} expected {expected} found {found}")
}

// How a session begins.
ghost use Rattle.std.specs.Prelude.{◌≡◌, ◌≤◌, All, IfOk, length, map};
ghost use Rattle.irv_base.specs.declared.limits.TheConstants.{GREATEST_GAMMA, GREATEST_LIMIT, MOST_CARDS};
ghost use Rattle.session_state.specs.Content.{begun, begun_with};

use crate::digests::Digests;
use crate::session::Session;
use assertion_file::AssertionFile;
use assertions::Claim;
use irv_base::{Memory, Name};
use sampler::Seed;
use std::alloc::Global;

/// Returns the margin of each claim.
pub fn margins_of(alloc: Global, claims: &[Claim]) -> Result<Vec<u32>, Memory>
    ensures { IfOk result (λ margins. margins.items ≡ map (λ claim. claim.margin) claims.now) }
{
    let margins = claims.iter().map(|claim| claim.margin).collect(alloc)?;
    Ok(margins)
}

/// Makes the session of an audit of claims with these margins, before its first round.
pub fn begin_plain(
    alloc: Global,
    contest: Name,
    margins: Vec<u32>,
    cards: u32,
    seed: Seed,
    limit: u32,
    gamma: u32,
    digests: Digests,
) -> Result<Session, Memory>
    requires some { 1 ≤ length margins.items }
    requires margins { All (λ margin. (1 ≤ margin) × (margin ≤ cards)) margins.items }
    requires cards { cards ≤ MOST_CARDS }
    requires some_limit { 1 ≤ limit }
    requires most_limit { limit ≤ GREATEST_LIMIT }
    requires some_gamma { 1 ≤ gamma }
    requires most_gamma { gamma ≤ GREATEST_GAMMA }
    ensures { IfOk result (λ session.
        session ≡ begun_with contest cards margins.items seed limit gamma digests) }
{
    Ok(Session::new(
        contest,
        cards,
        margins,
        seed,
        limit,
        gamma,
        digests,
        Vec::new(alloc),
    ))
}

/// Makes the session of an audit by an assertion file, before its first round.
pub fn begin_session(
    alloc: Global,
    contest: Name,
    cards: u32,
    f: &AssertionFile,
    seed: Seed,
    limit: u32,
    gamma: u32,
    digests: Digests,
) -> Result<Session, Memory>
    requires some { 1 ≤ length f.now.claims }
    requires margins { All (λ claim. claim.margin ≤ cards) f.now.claims }
    requires cards { cards ≤ MOST_CARDS }
    requires some_limit { 1 ≤ limit }
    requires most_limit { limit ≤ GREATEST_LIMIT }
    requires some_gamma { 1 ≤ gamma }
    requires most_gamma { gamma ≤ GREATEST_GAMMA }
    ensures { IfOk result (λ session.
        session ≡ begun contest cards f.now seed limit gamma digests) }
{
    let margins = margins_of(alloc, f.claims())?;
    begin_plain(alloc, contest, margins, cards, seed, limit, gamma, digests)
}

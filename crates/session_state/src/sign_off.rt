// When a session is signed off.
ghost use Rattle.std.specs.Prelude.{◌≡◌, ◌≤◌, slice_get};
ghost use Rattle.std.specs.List.{list_any};
ghost use Rattle.irv_base.specs.declared.limits.TheConstants.{GREATEST_LIMIT};
ghost use Rattle.session_state.specs.Sessions.{is_at_most, is_signed_off, meets};

use crate::round::DoneRound;
use crate::session::Session;

// The risk of the claim with this index, counted from 0, at the end of the round.
fn risk_at(round: &DoneRound, claim: usize) -> Option<u64>
    ensures { result ≡ slice_get round.now.risks claim }
{
    round.risks().get(claim).copied()
}

fn is_at_most(limit: u32, risk: Option<u64>) -> bool
    requires { limit ≤ GREATEST_LIMIT }
    ensures { result ≡ is_at_most limit risk }
{
    match risk {
        Some(risk) => km_risk::is_confirmed(risk, limit),
        None => false,
    }
}

// Whether the claim was within the limit at the end of some round.
fn is_confirmed(limit: u32, claim: usize, rounds: &[DoneRound]) -> bool
    requires { limit ≤ GREATEST_LIMIT }
    ensures { result ≡ list_any (meets limit claim) rounds.now }
{
    for round in rounds {
        if is_at_most(limit, risk_at(round, claim)) {
            return true;
        }
    }
    false
}

/// Returns whether there is a round, and every claim had a risk within the limit at the end of some round.
pub fn signed_off(s: &Session) -> bool
    ensures { result ≡ is_signed_off s.now.session }
{
    let limit = s.limit();
    let rounds = s.rounds();
    if rounds.is_empty() {
        return false;
    }
    for claim in 0..s.margins().len() {
        if !is_confirmed(limit, claim, rounds) {
            return false;
        }
    }
    true
}

// The next round.
ghost use Rattle.std.specs.Prelude.{◌≡◌, ◌≤◌, None, map, length, IfOk, IfErr, OnErr};
ghost use Rattle.irv_base.specs.declared.limits.TheConstants.{MOST_DRAWS};
ghost use Rattle.session_state.specs.Claims.{audited, audited_by, values_of};
ghost use Rattle.session_state.specs.Draws.{IsSessionOf, round_to};
ghost use Rattle.session_state.specs.Sessions.{is_signed_off};
ghost use Rattle.audit_session.specs.Going.{all_seen, drawn_cards, next_session};
ghost use Rattle.audit_session.specs.Refusals.{Refuses, refusal};

use crate::claims::Claims;
use crate::drawn::drawn_cards;
use crate::earlier::{counts_before, last_draws};
use crate::fault::AdvanceFault;
use crate::round::round_over;
use assertion_file::AssertionFile;
use manifest::Linked;
use seen_file::SeenCards;
use session_state::{DoneRound, Session, signed_off};
use std::alloc::Global;

// The round up to this number of draws in total, or why there is none.
fn next_round<T: Claims>(
    alloc: Global,
    s: &Session,
    l: &Linked,
    claims: &T,
    seen: &SeenCards,
    draws: u32,
) -> Result<DoneRound, AdvanceFault>
    requires cards { s.now.session.cards ≡ length l.now }
    requires each { length s.now.session.margins ≡ length (T.values claims.now) }
    requires some { 1 ≤ draws }
    requires most { draws ≤ MOST_DRAWS }
    ensures not_refused { IfOk result (λ _.
        refusal s.now (T.values claims.now) l.now seen.now draws ≡ None) }
    ensures round { IfOk result (λ round. round
        ≡ round_to s.now.session.gamma
        (audited_by (T.values claims.now) s.now.session.margins) l.now
        (all_seen seen.now (length l.now)) (drawn_cards s.now.seed (length l.now) draws) draws) }
    ensures refused { IfErr result
        (Refuses (refusal s.now (T.values claims.now) l.now seen.now draws)) }
{
    // Calls these for what their contracts say: the session is sound, and the values of the claims are 0, 1 and 2.
    let _cards = s.cards();
    let _count = claims.count();
    let had = last_draws(s.rounds());
    if draws <= had {
        return Err(AdvanceFault::Smaller { had });
    }
    let drawn = drawn_cards(alloc, s.seed(), l, seen, draws)?;
    let before = counts_before(alloc, s.rounds(), claims, &drawn)?;
    let round = round_over(
        alloc,
        s.cards(),
        s.gamma(),
        s.margins(),
        claims,
        &drawn,
        had as usize,
        &before,
    )?;
    Ok(round)
}

/// Adds the round up to this number of draws in total, and returns whether the session is then signed off.
///
/// It is refused for these reasons, in this order: there aren't more draws than at the last round; the card of a draw has no record of what
/// is seen (the fault names the first such draw); or the seen cards don't give the counts of an earlier round (the fault names the first such
/// round and its first such claim). A session that is refused doesn't change.
pub fn advance_by<T: Claims>(
    alloc: Global,
    s: &mut Session,
    l: &Linked,
    claims: &T,
    seen: &SeenCards,
    draws: u32,
) -> Result<bool, AdvanceFault>
    requires cards { s.old.session.cards ≡ length l.now }
    requires each { length s.old.session.margins ≡ length (T.values claims.now) }
    requires some { 1 ≤ draws }
    requires most { draws ≤ MOST_DRAWS }
    ensures not_refused { IfOk result (λ _.
        refusal s.old (T.values claims.now) l.now seen.now draws ≡ None) }
    ensures next { IfOk result (λ _.
        s.new ≡ next_session s.old (T.values claims.now) l.now seen.now draws) }
    ensures of_draws { IfOk result (λ _.
        IsSessionOf s.old.session.limit s.old.session.gamma
        (audited_by (T.values claims.now) s.old.session.margins) l.now
        (all_seen seen.now (length l.now)) (drawn_cards s.old.seed (length l.now) draws)
        s.new.session) }
    ensures told { IfOk result (λ done. done ≡ is_signed_off s.new.session) }
    ensures refused { IfErr result
        (Refuses (refusal s.old (T.values claims.now) l.now seen.now draws)) }
    ensures kept { OnErr result (s.new ≡ s.old) }
{
    // Calls these for what their contracts say: the session is sound, and the values of the claims are 0, 1 and 2.
    let _cards = s.cards();
    let _count = claims.count();
    let round = next_round(alloc, s, l, claims, seen, draws)?;
    s.add_round(round)?;
    Ok(signed_off(s))
}

/// Adds the round up to this number of draws in total, and returns whether the session is then signed off. The claims are those of an
/// assertion file.
///
/// It is refused for these reasons, in this order: there aren't more draws than at the last round; the card of a draw has no record of what
/// is seen (the fault names the first such draw); or the seen cards don't give the counts of an earlier round (the fault names the first such
/// round and its first such claim). A session that is refused doesn't change.
pub fn advance(
    alloc: Global,
    s: &mut Session,
    l: &Linked,
    f: &AssertionFile,
    seen: &SeenCards,
    draws: u32,
) -> Result<bool, AdvanceFault>
    requires cards { s.old.session.cards ≡ length l.now }
    requires margins { s.old.session.margins ≡ map (λ claim. claim.margin) f.now.claims }
    requires some { 1 ≤ draws }
    requires most { draws ≤ MOST_DRAWS }
    ensures not_refused { IfOk result (λ _.
        refusal s.old (values_of f.now) l.now seen.now draws ≡ None) }
    ensures next { IfOk result (λ _.
        s.new ≡ next_session s.old (values_of f.now) l.now seen.now draws) }
    ensures of_draws { IfOk result (λ _.
        IsSessionOf s.old.session.limit s.old.session.gamma (audited f.now) l.now
        (all_seen seen.now (length l.now)) (drawn_cards s.old.seed (length l.now) draws)
        s.new.session) }
    ensures told { IfOk result (λ done. done ≡ is_signed_off s.new.session) }
    ensures refused { IfErr result (Refuses (refusal s.old (values_of f.now) l.now seen.now draws)) }
    ensures kept { OnErr result (s.new ≡ s.old) }
{
    advance_by(alloc, s, l, f, seen, draws)
}

//! A worked example: a session that continues and is counted.
ghost use Rattle.std.specs.Prelude.{ℕ, List, IsTrue};
ghost use Rattle.session_state.specs.Sessions.{is_signed_off};
ghost use Rattle.session_state.specs.declared.digests.Digests.{Digests};
ghost use Rattle.audit_session.specs.Going.{drawn_cards, next_session};
ghost use Rattle.audit_session.specs.Laws.{AreTrueEntries, GoesOn};
ghost use Rattle.audit_session.specs.Examples as examples;

/// One card is drawn again and again, whatever the seed. The session continues with five draws, and is signed off.
pub fn one_card()
    ensures seen { (seed : List ℕ) →
        AreTrueEntries examples.one_actual examples.one_entry (drawn_cards seed 1 5) }
    ensures goes_on { (contest seed : List ℕ) (digests : Digests) →
        GoesOn (examples.one_begun contest seed digests) examples.one_lead
        examples.one_record examples.one_entry 5 }
    ensures signed_off { (contest seed : List ℕ) (digests : Digests) →
        IsTrue (is_signed_off (next_session (examples.one_begun contest seed digests)
        examples.one_lead examples.one_record examples.one_entry 5).session) }
{}

//! Worked examples: sessions of a few cards, computed by the checker.
ghost use Rattle.std.specs.Prelude.{◌≡◌, [], ◌∷◌, false, IsTrue};
ghost use Rattle.assorters.specs.declared.seen.Seen.TheVariants.{Found, Missing};
ghost use Rattle.session_state.specs.Sessions.{is_signed_off};
ghost use Rattle.session_state.specs.Draws.{risk_after, session_to};
ghost use Rattle.session_state.specs.Examples as examples;

/// One card is drawn again and again. Four draws aren't enough for a limit of 0.05, and five are.
pub fn one_card()
    ensures four { is_signed_off (session_to 50000 100 examples.lead_of_one examples.one_record
        (Found (0 ∷ []) ∷ []) (1 ∷ 1 ∷ 1 ∷ 1 ∷ 1 ∷ []) (4 ∷ [])) ≡ false }
    ensures five { IsTrue (is_signed_off (session_to 50000 100 examples.lead_of_one
        examples.one_record (Found (0 ∷ []) ∷ []) (1 ∷ 1 ∷ 1 ∷ 1 ∷ 1 ∷ []) (4 ∷ 5 ∷ []))) }
    ensures missing { is_signed_off (session_to 50000 100 examples.lead_of_one examples.one_record
        (Missing ∷ []) (1 ∷ 1 ∷ 1 ∷ 1 ∷ 1 ∷ []) (4 ∷ 5 ∷ [])) ≡ false }
{}

/// Of three cards, one has a ranking that differs from its record. The first draw has a risk of exactly 0.8. At a limit of 0.8, the claim is
/// confirmed in the round of one draw, and stays confirmed although the second draw takes its risk above the limit.
pub fn confirmed_earlier()
    ensures exact { risk_after 500 examples.lead_of_three examples.three_lead examples.one_worse
        (1 ∷ 3 ∷ []) 1 examples.claim_of_two ≡ 800000000000000000 }
    ensures risen { risk_after 500 examples.lead_of_three examples.three_lead examples.one_worse
        (1 ∷ 3 ∷ []) 2 examples.claim_of_two ≡ 914285714285714286 }
    ensures both { IsTrue (is_signed_off (session_to 800000 500 examples.lead_of_three
        examples.three_lead examples.one_worse (1 ∷ 3 ∷ []) (1 ∷ 2 ∷ []))) }
    ensures second_alone { is_signed_off (session_to 800000 500 examples.lead_of_three
        examples.three_lead examples.one_worse (1 ∷ 3 ∷ []) (2 ∷ [])) ≡ false }
    ensures lower_limit { is_signed_off (session_to 799999 500 examples.lead_of_three
        examples.three_lead examples.one_worse (1 ∷ 3 ∷ []) (1 ∷ 2 ∷ [])) ≡ false }
    ensures no_round { is_signed_off (session_to 800000 500 examples.lead_of_three
        examples.three_lead examples.one_worse (1 ∷ 3 ∷ []) []) ≡ false }
{}

/// There are two claims. The first round confirms the first claim, and the second round the second claim. Then all are confirmed.
pub fn two_claims()
    ensures first { is_signed_off (session_to 800000 500 examples.two_leads
        examples.three_lead examples.one_worse (1 ∷ 2 ∷ 1 ∷ []) (1 ∷ [])) ≡ false }
    ensures both { IsTrue (is_signed_off (session_to 800000 500 examples.two_leads
        examples.three_lead examples.one_worse (1 ∷ 2 ∷ 1 ∷ []) (1 ∷ 3 ∷ []))) }
{}

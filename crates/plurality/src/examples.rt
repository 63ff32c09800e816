//! Worked examples: the definitions applied to a few ballots, computed by the checker.
ghost use Rattle.std.specs.Prelude.{◌≡◌, [], ◌∷◌, Err, Ok, count_by, sum_by};
ghost use Rattle.std.specs.List.{range_with_len};
ghost use Rattle.km_risk.specs.Reach.{sequences};
ghost use Rattle.manifest.specs.Linked.{linked_of};
ghost use Rattle.session_state.specs.Draws.{is_signed_off_on};
ghost use Rattle.session_state.specs.RiskOfValues.{AreSignedOff, AreTerms};
ghost use Rattle.plurality.specs.Plural.{claims_of, lead, outcome_of};
ghost use Rattle.plurality.specs.RiskLimit.{ArePublished, HaveAnother};
ghost use Rattle.plurality.specs.Examples as examples;

/// What a ballot counts for in the claim of candidate 0 against candidate 1.
pub fn values()
    ensures winner { lead 0 1 (0 ∷ 1 ∷ []) ≡ 2 }
    ensures loser { lead 0 1 (1 ∷ 0 ∷ []) ≡ 0 }
    ensures another { lead 0 1 (2 ∷ 0 ∷ 1 ∷ []) ≡ 1 }
    ensures none { lead 0 1 [] ≡ 1 }
{}

/// Seven ballots: three rank candidate 0 first, two rank candidate 1 first, one ranks candidate 2 first, and one ranks nobody.
pub fn three_candidates()
    ensures outcome { outcome_of 3 examples.three_two_one
        ≡ Ok (record { winner = 0; losers = 1 ∷ 2 ∷ []; margins = 1 ∷ 2 ∷ [] }) }
    ensures second { sum_by (lead 0 1) examples.three_two_one ≡ 8 }
    ensures third { sum_by (lead 0 2) examples.three_two_one ≡ 9 }
{}

/// Candidates whom nobody ranks first are losers too.
pub fn nobodys_first()
    ensures { outcome_of 3 examples.two_for_one
        ≡ Ok (record { winner = 0; losers = 1 ∷ 2 ∷ []; margins = 2 ∷ 2 ∷ [] }) }
{}

/// A tie of two candidates with one ballot each, and a tie in which no ballot has a preference.
pub fn ties()
    ensures one_each { outcome_of 3 ((0 ∷ []) ∷ (2 ∷ []) ∷ [])
        ≡ Err (record { tied = 5; tally = 1 }) }
    ensures nobody { outcome_of 2 ([] ∷ []) ≡ Err (record { tied = 3; tally = 0 }) }
{}

/// Two cards are recorded for candidate 0, but in truth there is a tie. At a limit of 0.7 a draw of the first card is
/// enough, and a draw of the second isn't. So one of the two sequences of one card is signed off, and 1 of 2 is at most 0.7.
pub fn wrong_winner()
    ensures published { ArePublished
        examples.two_batches examples.two_ballots examples.two_outcome }
    ensures terms { AreTerms 700000 500 }
    ensures wrong { HaveAnother 2 0 2 examples.two_actual }
    ensures linked { linked_of examples.two_batches examples.two_ballots ≡ examples.two_records }
    ensures signed_off { AreSignedOff 700000 500 (claims_of examples.two_outcome)
        examples.two_records examples.two_actual 1 ((1 ∷ []) ∷ []) }
    ensures counted { count_by (is_signed_off_on 700000 500 (claims_of examples.two_outcome)
        examples.two_records examples.two_seen) (sequences (range_with_len 1 2) 1) ≡ 1 }
{}

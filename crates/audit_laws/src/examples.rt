//! Worked examples: a wrong winner that meets every premise of the risk limit, and a second set of assertions for the winner of a file.
ghost use Rattle.std.specs.Prelude.{◌≡◌, ◌<◌, ◌*◌, [], ◌∷◌, count_by, None, Some};
ghost use Rattle.std.specs.List.{range_with_len};
ghost use Rattle.budget.specs.declared.budget.Budget.TheVariants.{Nodes};
ghost use Rattle.km_risk.specs.declared.limits.TheConstants.{MILLIONTH};
ghost use Rattle.km_risk.specs.Clean.{clean_draws};
ghost use Rattle.km_risk.specs.Counts.{clean};
ghost use Rattle.km_risk.specs.Printed.{printed_risk};
ghost use Rattle.km_risk.specs.Reach.{sequences};
ghost use Rattle.manifest.specs.Linked.{linked_of};
ghost use Rattle.session_state.specs.Draws.{is_signed_off_on};
ghost use Rattle.session_state.specs.Claims.{audited};
ghost use Rattle.session_state.specs.RiskOfValues.{AreSignedOff, AreTerms};
ghost use Rattle.audit_laws.specs.CleanDraws.{AreEnough, IsRival};
ghost use Rattle.audit_laws.specs.RiskLimit.{ArePublished, MayElectAnother};
ghost use Rattle.audit_laws.specs.Examples as examples;

/// Two cards are recorded for candidate 0, but in truth there is a tie. At a limit of 0.7 a draw of the first card is
/// enough, and a draw of the second isn't. So one of the two sequences of one card is signed off, and 1 of 2 is at most 0.7.
pub fn wrong_winner()
    ensures published { ArePublished (Nodes 10)
        examples.two_batches examples.two_ballots examples.two_file }
    ensures terms { AreTerms 700000 500 }
    ensures wrong { MayElectAnother 2 0 2 examples.two_actual }
    ensures linked { linked_of examples.two_batches examples.two_ballots ≡ examples.two_records }
    ensures signed_off { AreSignedOff 700000 500 (audited examples.two_file) examples.two_records
        examples.two_actual 1 ((1 ∷ []) ∷ []) }
    ensures counted { count_by (is_signed_off_on 700000 500 (audited examples.two_file)
        examples.two_records examples.two_seen) (sequences (range_with_len 1 2) 1) ≡ 1 }
{}

/// Each of two assertions with margin 2 proves the winner. At a limit of 0.5, two clean draws are enough for both. With a
/// margin of 1, no number of draws up to the two cards would be enough; with more draws than cards, five would be.
pub fn another_proof()
    ensures rival { IsRival (Nodes 10) 2 500 examples.two_ballots examples.two_file
        examples.other_proof }
    ensures two { clean_draws 2 2 500 500000 ≡ Some 2 }
    ensures enough { AreEnough 2 500 500000 2 2 }
    ensures one { 500000 * MILLIONTH < printed_risk 2 2 500 (clean 1) }
    ensures smaller_margin { clean_draws 2 1 500 500000 ≡ None }
    ensures five { AreEnough 2 500 500000 5 1 }
    ensures four { 500000 * MILLIONTH < printed_risk 2 1 500 (clean 4) }
{}

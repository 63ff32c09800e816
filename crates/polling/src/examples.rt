//! Worked examples, computed by the checker: a poll of one card that is drawn again and again, and a poll of two cards that are in truth
//! a tie.
ghost use Rattle.std.specs.Prelude.{◌≡◌, false, ◌∷◌, [], count_by, map, IsTrue};
ghost use Rattle.std.specs.List.{range_with_len};
ghost use Rattle.assertions.specs.Assorter.{assorter_value};
ghost use Rattle.km_risk.specs.Reach.{sequences};
ghost use Rattle.session_state.specs.RiskOfValues.{AreTerms};
ghost use Rattle.audit_laws.specs.Claims.{Cover};
ghost use Rattle.audit_laws.specs.Examples.{two_actual, two_seen};
ghost use Rattle.audit_laws.specs.RiskLimit.{MayElectAnother};
ghost use Rattle.assorters.specs.Examples.{lead};
ghost use Rattle.polling.specs.PollLimit.{AreConfirmed};
ghost use Rattle.polling.specs.Polls.{is_confirmed, poll_counts, poll_risk};
ghost use Rattle.polling.specs.Examples as examples;

/// A card that is found to be for the winner: at a limit of 0.05 and a gamma of 0.1, five draws are enough, and four aren't.
pub fn one_card()
    ensures counts { poll_counts lead examples.one_found (examples.draws_of_one 4)
        ≡ record { n0 = 0; n1 = 0; n2 = 4 } }
    ensures four { poll_risk 100 (poll_counts lead examples.one_found (examples.draws_of_one 4))
        ≡ 88518543815313162 }
    ensures five { poll_risk 100 (poll_counts lead examples.one_found (examples.draws_of_one 5))
        ≡ 48282842081079907 }
    ensures confirmed { IsTrue (is_confirmed 50000 100 (lead ∷ []) examples.one_found
        (examples.draws_of_one 5)) }
    ensures too_few { is_confirmed 50000 100 (lead ∷ []) examples.one_found
        (examples.draws_of_one 4) ≡ false }
{}

/// A card that can't be found counts for the loser: the factor of the draw is 6, and the risk is 1.
pub fn missing_card()
    ensures counts { poll_counts lead examples.one_missing (examples.draws_of_one 1)
        ≡ record { n0 = 1; n1 = 0; n2 = 0 } }
    ensures risk { poll_risk 100 (poll_counts lead examples.one_missing (examples.draws_of_one 1))
        ≡ 1000000000000000000 }
{}

/// All premises of the limit of a poll can be met. One of two cards is for candidate 0, and the other is for candidate 1. At a limit of 0.7
/// a draw of the first is enough, and a draw of the second isn't. So one of the two sequences of one card is confirmed, and 1 of 2 is at
/// most 0.7.
pub fn wrong_winner()
    ensures cover { Cover 2 0 examples.leads }
    ensures terms { AreTerms 700000 500 }
    ensures wrong { MayElectAnother 2 0 2 two_actual }
    ensures confirmed { AreConfirmed 700000 500 (map assorter_value examples.leads) two_actual 1
        ((1 ∷ []) ∷ []) }
    ensures counted { count_by
        (is_confirmed 700000 500 (map assorter_value examples.leads) two_seen)
        (sequences (range_with_len 1 2) 1) ≡ 1 }
{}

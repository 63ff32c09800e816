//! Worked examples: the texts of small sessions, what the tests of a session answer, and what a small file says, computed by the checker.
ghost use Rattle.std.specs.Prelude.{◌≡◌, ◌∷◌, ◌++◌, [], codes, false, replicate, Some, None, IsTrue};
ghost use Rattle.serde_json.specs.Data.{string};
ghost use Rattle.session_state.specs.Content.{IsSound};
ghost use Rattle.session_file.specs.Examples as examples;
ghost use Rattle.session_file.specs.Reading.{session_of};
ghost use Rattle.session_file.specs.Sound.{are_margins, is_round, rises_above};
ghost use Rattle.session_file.specs.Stated.{digest};
ghost use Rattle.session_file.specs.Text.{session_text};

/// One card is drawn four times and then once more, which confirms the only assertion.
pub fn one_card()
    ensures sound { IsSound (examples.one_card (codes "2024")
        (examples.four_draws ∷ examples.five_draws ∷ [])) }
    ensures begun { session_text (examples.one_card (codes "2024") []) ≡
        examples.head
        ++ codes "\"rounds\":[],\"seed\":\"2024\",\"signed_off\":false,\"version\":1}\n" }
    ensures four { session_text (examples.one_card (codes "2024") (examples.four_draws ∷ [])) ≡
        examples.head
        ++ codes "\"rounds\":[{\"counts\":[[0,0,4,0,0]],"
        ++ codes "\"draws\":4,\"risks\":[88518543815313162]}],"
        ++ codes "\"seed\":\"2024\",\"signed_off\":false,\"version\":1}\n" }
    ensures five { session_text (examples.one_card (codes "2024")
        (examples.four_draws ∷ examples.five_draws ∷ [])) ≡
        examples.head
        ++ codes "\"rounds\":[{\"counts\":[[0,0,4,0,0]],\"draws\":4,\"risks\":[88518543815313162]},"
        ++ codes "{\"counts\":[[0,0,5,0,0]],\"draws\":5,\"risks\":[48282842081079907]}],"
        ++ codes "\"seed\":\"2024\",\"signed_off\":true,\"version\":1}\n" }
{}

/// A quotation mark and a backslash in a seed are printed after a backslash.
pub fn escaped_seed()
    ensures { session_text (examples.one_card (codes "a \"b\\") []) ≡
        examples.head
        ++ codes "\"rounds\":[],\"seed\":\"a \\\"b\\\\\",\"signed_off\":false,\"version\":1}\n" }
{}

/// Five draws of the only card, also with a risk that is one unit too small, with another gamma, and with no claim.
pub fn five_draws()
    ensures right { IsTrue (is_round 1 100 (1 ∷ []) examples.five_draws) }
    ensures risk { is_round 1 100 (1 ∷ []) (examples.clean_round 5 48282842081079906) ≡ false }
    ensures gamma { is_round 1 101 (1 ∷ []) examples.five_draws ≡ false }
    ensures no_claim { is_round 1 100 [] examples.five_draws ≡ false }
{}

/// Draws that increase, draws that stay the same, and a first round without a draw.
pub fn rising()
    ensures rise { IsTrue (rises_above 0 (4 ∷ 5 ∷ [])) }
    ensures stay { rises_above 0 (4 ∷ 4 ∷ []) ≡ false }
    ensures no_draw { rises_above 0 (0 ∷ []) ≡ false }
{}

/// The smallest and largest margins of twelve cards, and the margins just outside them.
pub fn margins()
    ensures within { IsTrue (are_margins 12 (1 ∷ 12 ∷ [])) }
    ensures above { are_margins 12 (1 ∷ 13 ∷ []) ≡ false }
    ensures below { are_margins 12 (0 ∷ 12 ∷ []) ≡ false }
    ensures no_claim { are_margins 12 [] ≡ false }
{}

/// Digits in either case, a letter that isn't a digit, and two digits too few.
pub fn digests()
    ensures either_case { digest (string examples.of_either_case) ≡ Some (replicate 32 0x2C) }
    ensures letter { digest (string examples.with_a_letter) ≡ None }
    ensures too_few { digest (string examples.two_too_few) ≡ None }
{}

/// The members in another order, and an extra member.
pub fn begun()
    ensures { session_of examples.begun_text ≡ Some (examples.one_card (codes "2024") []) }
{}

//! Worked examples: a file of two contests, and records that break each rule first.
ghost use Rattle.std.specs.Prelude.{◌≡◌, ◌++◌, List, [], ◌∷◌, length, Some, None, Ok, true, false, codes};
ghost use Rattle.csv_rows.specs.Rows.{Fields};
ghost use Rattle.irv_base.specs.declared.limits.TheConstants.{MOST_RECORDS};
ghost use Rattle.ballots.specs.Grammar.{ballots_from, contests_from};
ghost use Rattle.file_fault.specs.Refusals.{refused};
ghost use Rattle.ballots.specs.declared.fault.BRule.TheVariants.{B1, B2, B3, B4, B5, B6, B7, B8, B9, B10};
ghost use Rattle.ballot_laws.specs.Breaking.{IsRefused, ballot_rule, contest_rule};
ghost use Rattle.ballot_laws.specs.Bytes.{is_plain_record, written};
ghost use Rattle.ballot_laws.specs.Rows.{asked_place, candidates_in, preferences};
ghost use Rattle.ballot_laws.specs.Spelling.{Spells};
ghost use Rattle.ballot_laws.specs.Examples.{two_contests, for_mayor, for_board, and_then_comes, one_too_small, nobody_for_mayor};
ghost use Rattle.ballot_laws.specs.Examples.{count_of, mayor, board, vote};

/// Each contest is spelled, with its own ballots and their records. If the file doesn't have the requested contest, or if none is
/// requested, it is refused.
pub fn two_contests_in_a_file()
    ensures mayor { Spells (Some (codes "mayor")) two_contests for_mayor }
    ensures board { Spells (Some (codes "board")) two_contests for_board }
    ensures none { IsRefused None two_contests B5 1 }
    ensures other { IsRefused (Some (codes "sheriff")) two_contests B5 1 }
{}

/// All contests of a file are read in order, each exactly as it is read by its id.
pub fn all_contests_of_a_file()
    ensures all { contests_from two_contests ≡ Ok (for_mayor ∷ for_board ∷ []) }
    ensures mayor { ballots_from (Some (codes "mayor")) two_contests ≡ Ok for_mayor }
    ensures board { ballots_from (Some (codes "board")) two_contests ≡ Ok for_board }
{}

/// If one contest has too few candidates, all contests are refused at its record before any ballot is judged. The other contest can
/// still be read by its id.
pub fn one_contest_of_several_is_refused()
    ensures all { contests_from one_too_small ≡ refused B3 3 }
    ensures board { ballots_from (Some (codes "board")) one_too_small ≡ refused B3 3 }
    ensures mayor { ballots_from (Some (codes "mayor")) one_too_small ≡ Ok nobody_for_mayor }
    ensures before_ballots { contests_from (one_too_small ++ count_of (codes "mayor") ∷ [])
        ≡ refused B3 3 }
    ensures by_ballots { ballots_from (Some (codes "mayor"))
        (one_too_small ++ count_of (codes "mayor") ∷ []) ≡ refused B6 4 }
{}

/// The records of contests are counted, and each has the word, a new id, and as many candidates as it says.
pub fn contests()
    ensures empty { IsRefused None [] B1 1 }
    ensures no_number { IsRefused None (mayor ∷ []) B1 1 }
    ensures missing { IsRefused None (count_of (codes "2") ∷ mayor ∷ []) B2 3 }
    ensures repeated { IsRefused None (count_of (codes "2") ∷ mayor ∷ mayor ∷ []) B2 3 }
    ensures short { contest_rule [] (codes "Contest" ∷ codes "mayor" ∷ []) ≡ Some B2 }
    ensures word { contest_rule [] (codes "contest" ∷ codes "" ∷ codes "0" ∷ []) ≡ Some B2 }
    ensures few { contest_rule []
        (codes "Contest" ∷ codes "" ∷ codes "2" ∷ codes "Ash" ∷ []) ≡ Some B3 }
    ensures twice { contest_rule []
        (codes "Contest" ∷ codes "mayor" ∷ codes "2" ∷ codes "Ash" ∷ codes "Ash" ∷ []) ≡ Some B4 }
    ensures fine { contest_rule (mayor ∷ []) board ≡ None }
    ensures candidates { candidates_in board ≡ codes "Cedar" ∷ codes "Elm" ∷ codes "Fir" ∷ [] }
{}

/// The audited contest is the requested one, or the only one in the file. One candidate is too few.
pub fn audited()
    ensures second { asked_place (Some (codes "board")) (mayor ∷ board ∷ []) ≡ Some 3 }
    ensures only { asked_place None (board ∷ []) ≡ Some 2 }
    ensures several { asked_place None (mayor ∷ board ∷ []) ≡ None }
    ensures too_small { IsRefused None (count_of (codes "1")
        ∷ (codes "Contest" ∷ codes "mayor" ∷ codes "1" ∷ codes "Ash" ∷ []) ∷ []) B3 2 }
{}

/// Records of ballots. Each comes after those of `two_contests`, as the seventh.
pub fn ballots()
    ensures short { IsRefused (Some (codes "mayor")) (and_then_comes (codes "mayor" ∷ [])) B6 7 }
    ensures no_id { IsRefused (Some (codes "mayor"))
        (and_then_comes (vote (codes "sheriff") [] [])) B4 7 }
    ensures no_contest { IsRefused (Some (codes "mayor"))
        (and_then_comes (vote (codes "sheriff") (codes "3") [])) B7 7 }
    ensures repeated { IsRefused (Some (codes "mayor"))
        (and_then_comes (vote (codes "mayor") (codes "2") (codes "Fir" ∷ []))) B9 7 }
    ensures unknown { IsRefused (Some (codes "mayor"))
        (and_then_comes (vote (codes "mayor") (codes "3") (codes "Fir" ∷ []))) B8 7 }
    ensures other_contest { IsRefused (Some (codes "mayor"))
        (and_then_comes (vote (codes "board") (codes "2") (codes "Ash" ∷ []))) B8 7 }
    ensures id_elsewhere { ballot_rule (mayor ∷ board ∷ [])
        (vote (codes "mayor") (codes "2") [] ∷ []) (vote (codes "board") (codes "2") []) ≡ None }
    ensures preferences { preferences (vote (codes "mayor") (codes "3") ([] ∷ codes "Ash" ∷ []))
        ≡ codes "Ash" ∷ [] }
{}

/// A file has at most `MOST_RECORDS` ballots: whatever comes after that many breaks B10 first.
pub fn most_ballots()
    ensures { (contests before : List Fields) (row : Fields) →
        length before ≡ MOST_RECORDS → ballot_rule contests before row ≡ Some B10 }
{}

/// Records are written one to a line, with quotes around a field that has quotes. A blank record has no number.
pub fn writing()
    ensures lines { written ((codes "1" ∷ []) ∷ (codes "a b" ∷ [] ∷ codes "\"" ∷ []) ∷ [])
        ≡ codes "1\na b,,\"\"\"\"\n" }
    ensures plain { is_plain_record (codes "a b" ∷ [] ∷ codes "\"" ∷ []) ≡ true }
    ensures blank { is_plain_record (codes "" ∷ []) ≡ false }
    ensures spaced { is_plain_record (codes "a " ∷ codes "b" ∷ []) ≡ false }
{}

//! Worked examples: what polls print, and whether assertions prove their winner, computed by the checker.
ghost use Rattle.std.specs.Prelude.{◌≡◌, ◌∷◌, ◌++◌, [], codes, false, None, Some};
ghost use Rattle.cli_base.specs.Outcome.{Answered};
ghost use Rattle.cli_base.specs.declared.outcome.AnswerKind.TheVariants.{Differs, Spent};
ghost use Rattle.poll_command.specs.Examples as examples;
ghost use Rattle.poll_command.specs.Poll.{uncovered};
ghost use Rattle.poll_command.specs.Table.{poll_table};

/// A claim that five draws confirm at a limit of 0.05, and one that a missing card keeps unconfirmed.
pub fn two_claims()
    ensures { poll_table (examples.file_of (1 ∷ 2 ∷ []))
        1 5 50000 100
        (examples.for_the_winner 5 ∷ examples.against_the_winner 5 ∷ [])
        (48282842081079907 ∷ 1000000000000000000 ∷ []) false ≡
        codes "cards 1\ndraws 5\nlimit 50000\ngamma 100\n" ++
        codes "NEB 1 2 counts 0 0 5 risk 0.048282842081079907 confirmed\n" ++
        codes "NEB 1 3 counts 5 0 0 risk 1.000000000000000000 unconfirmed\n" ++
        codes "confirmed no\n" }
{}

/// If the first of three candidates has more votes than the second, this doesn't prove that it wins: nothing refutes 2,1,3. For the third
/// candidate the suffixes 3 and 1,3 count, so one node isn't enough. If it also has more votes than the third, that proves it.
pub fn three_candidates()
    ensures stands { uncovered 2 (examples.file_of (1 ∷ [])) ≡
        Some (Answered Differs (codes "no: order 2,1,3 stands\n")) }
    ensures spent { uncovered 1 (examples.file_of (1 ∷ [])) ≡
        Some (Answered Spent (codes "spent\ncandidate 3\n")) }
    ensures proved { uncovered 1 (examples.file_of (1 ∷ 2 ∷ []))
        ≡ None }
{}

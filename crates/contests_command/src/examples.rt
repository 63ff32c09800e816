//! Worked examples: what is printed for contests without a winner, computed by the checker.
ghost use Rattle.std.specs.Prelude.{◌≡◌, ◌∷◌, ◌++◌, [], codes};
ghost use Rattle.contest_set.specs.declared.end.ContestEnd.TheVariants.{Spent, Tied};
ghost use Rattle.contests_command.specs.Examples as examples;
ghost use Rattle.contests_command.specs.Table.{contests_table};

/// A contest that is tied, and one whose budget ran out.
pub fn two_contests()
    ensures { contests_table 50000
        (examples.of_two_candidates (codes "7") ∷ examples.of_two_candidates (codes "8") ∷ [])
        (Tied 1 3 0 ∷ Spent 1 (0 ∷ 1 ∷ []) 2 ∷ []) ≡
        codes "contest 7\ntie\nround 1\ntied 1,2\ntally 0\nsigned off no\n" ++
        codes "contest 8\nspent\ncandidate 2\norder 1,2\nmargin 2\nsigned off no\n" ++
        codes "all no\n" }
{}

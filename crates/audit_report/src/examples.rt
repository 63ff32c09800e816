//! Worked examples: the texts of small audits, computed by the checker.
ghost use Rattle.std.specs.Prelude.{◌≡◌, ◌∷◌, ◌++◌, [], codes};
ghost use Rattle.audit_report.specs.Examples as examples;
ghost use Rattle.audit_report.specs.Plan.{plan_table};
ghost use Rattle.audit_report.specs.Session.{session_table};

/// One card and one claim: four draws aren't enough for a limit of 0.05, and five are.
pub fn one_card()
    ensures { session_table examples.one_card ≡
        codes "contest 7\ncards 1\nlimit 50000\ngamma 100\nseed 2024\nround 1 draws 4\n" ++
        codes "assertion 1 margin 1 counts 0 0 4 0 0 risk 0.088518543815313162 unconfirmed\n" ++
        codes "round 2 draws 5\n" ++
        codes "assertion 1 margin 1 counts 0 0 5 0 0 risk 0.048282842081079907 confirmed\n" ++
        codes "signed off yes\n" }
{}

/// Plans for twelve cards, at a limit of 0.2 and a gamma of 0.1: a margin of six votes needs seven draws, and a margin of twelve needs three.
pub fn twelve_cards()
    ensures two { plan_table
        (examples.file_of (6 ∷ 12 ∷ [])) 12 100 200000 ≡
        codes "NEB A B margin 6: 7 draws\nNEB A B margin 12: 3 draws\nall: 7 draws\n" }
    ensures close { plan_table
        (examples.file_of (1 ∷ 12 ∷ [])) 12 100 200000 ≡
        codes "NEB A B margin 1: full count\nNEB A B margin 12: 3 draws\nall: full count\n" }
    ensures none { plan_table (examples.file_of []) 12 100 200000 ≡ codes "all: 0 draws\n" }
{}

//! Worked examples: the texts of small contests, computed by the checker.
ghost use Rattle.std.specs.Prelude.{◌≡◌, ◌∷◌, ◌++◌, [], codes};
ghost use Rattle.assertions.specs.declared.assertion.Assertion.TheVariants.{Neb, Nen};
ghost use Rattle.km_risk.specs.declared.limits.TheConstants.{ONE};
ghost use Rattle.report.specs.Ends.{spent_sets, spent_sets_text, spent_text, tie_text};
ghost use Rattle.report.specs.Examples as examples;
ghost use Rattle.report.specs.Risks.{counts_text, risk_text};
ghost use Rattle.report.specs.Texts.{assertion_text, order_text, set_text};
ghost use Rattle.report.specs.Tabulations.{tabulation_text};

/// Three candidates and two rounds.
pub fn three_candidates()
    ensures { tabulation_text examples.three_candidates (2 ∷ 0 ∷ 1 ∷ []) 1 ≡
        codes "contest 1\nrecords 12\n" ++
        codes "round 1: 1=5 2=4 3=3 exhausted=0\neliminated 3\n" ++
        codes "round 2: 1=5 2=7 exhausted=0\neliminated 1\n" ++
        codes "winner 2\n" }
{}

/// Four candidates, with a ballot that is exhausted in the last round.
pub fn county()
    ensures { tabulation_text examples.county (0 ∷ 3 ∷ 2 ∷ 1 ∷ []) 1 ≡
        codes "contest county\nrecords 10\n" ++
        codes "round 1: A=1 B=4 C=3 D=2 exhausted=0\neliminated A\n" ++
        codes "round 2: B=5 C=3 D=2 exhausted=0\neliminated D\n" ++
        codes "round 3: B=5 C=4 exhausted=1\neliminated C\n" ++
        codes "winner B\n" }
{}

/// An order, a set, and both kinds of assertion.
pub fn three_names()
    ensures order { order_text examples.three_names (1 ∷ 0 ∷ 2 ∷ []) ≡ codes "2,1,3" }
    ensures set { set_text examples.three_names 5 ≡ codes "1,3" }
    ensures neb { assertion_text examples.three_names (Neb 1 2) ≡ codes "NEB 2 3" }
    ensures nen { assertion_text examples.three_names (Nen 2 0 5) ≡ codes "NEN 3 1 {1,3}" }
{}

/// A tie of the first two candidates in round 1, a budget that runs out at the third, and a budget of two sets that runs out.
pub fn ends()
    ensures tie { tie_text examples.three_names 1 3 4 ≡
        codes "tie\nround 1\ntied 1,2\ntally 4\n" }
    ensures spent { spent_text examples.three_names 2 (0 ∷ 1 ∷ 2 ∷ []) 3 ≡
        codes "spent\ncandidate 3\norder 1,2,3\nmargin 3\n" }
    ensures by_sets { spent_sets_text examples.three_names 2 (2 ∷ 1 ∷ 0 ∷ []) 2 ≡
        codes "spent\nsets 2\norder 3,2,1\nmargin 2\n" }
    ensures sets { spent_sets 2 ≡ codes "spent\nsets 2\n" }
{}

/// The largest risk, and small ones.
pub fn risks()
    ensures one { risk_text ONE ≡ codes "1.000000000000000000" }
    ensures below { risk_text 999999999999999999 ≡ codes "0.999999999999999999" }
    ensures unit { risk_text 1 ≡ codes "0.000000000000000001" }
    ensures none { risk_text 0 ≡ codes "0.000000000000000000" }
{}

/// Two cards are worse than recorded by one vote, and three are clean.
pub fn counts()
    ensures { counts_text examples.two_of_five ≡ codes "0 2 3 0 0" }
{}

// What receives the rankings of ballots as they are read.
ghost use Rattle.std.specs.Prelude.{◌≡◌, ◌<◌, ◌++◌, ◌∷◌, [], ℕ, List, OnOk, false};
ghost use Rattle.irv_base.specs.Candidates.{is_in};
ghost use Rattle.irv_base.specs.declared.limits.TheConstants.{ROOM};

use irv_base::{Candidate, Memory, Rankings};
use set_tallies::Counting;

/// Rankings. Each one is added at the end and then receives its candidates one by one.
pub trait RankingTaker {
    /// The rankings.
    ghost rankings: { Self → List (List ℕ) };

    /// Candidates below this number can be added.
    ghost room: { Self → ℕ };

    /// Appends a ranking without candidates.
    fn begin(&mut self) -> Result<(), Memory>
        ensures room { room self.new ≡ room self.old }
        ensures begun { OnOk result (rankings self.new ≡ rankings self.old ++ [] ∷ []) };

    /// Adds a candidate who isn't in the last ranking to its end.
    fn lengthen(&mut self, c: Candidate) -> Result<(), Memory>
        requires below { c < room self.now }
        requires last { (earlier : List (List ℕ)) × (last : List ℕ)
            × (rankings self.now ≡ earlier ++ last ∷ []) × (is_in last c ≡ false) }
        ensures room { room self.new ≡ room self.old }
        ensures longer { OnOk result ((earlier : List (List ℕ)) → (last : List ℕ)
            → rankings self.old ≡ earlier ++ last ∷ []
            → rankings self.new ≡ earlier ++ (last ++ c ∷ []) ∷ []) };
}

impl RankingTaker for Rankings {
    ghost rankings = { λ rankings. rankings };

    ghost room = { λ rankings. ROOM };

    fn begin(&mut self) -> Result<(), Memory> {
        Rankings::begin(self)
    }

    fn lengthen(&mut self, c: Candidate) -> Result<(), Memory> {
        Rankings::lengthen(self, c)
    }
}

impl RankingTaker for Counting {
    ghost rankings = { λ counting. counting.rankings };

    ghost room = { λ counting. counting.n };

    fn begin(&mut self) -> Result<(), Memory> {
        Counting::begin(self)
    }

    fn lengthen(&mut self, c: Candidate) -> Result<(), Memory> {
        Counting::lengthen(self, c);
        Ok(())
    }
}

//! Worked examples, computed by the checker: what lies on both sides of each limit of a ballot file, and how ids are distinguished.
ghost use Rattle.std.specs.Prelude.{◌≡◌, ◌+◌, ◌-◌, ◌%◌, ◌^◌, [], ◌∷◌, Some, None, true, false, codes, replicate};
ghost use Rattle.irv_base.specs.declared.limits.TheConstants.{FEWEST_CANDIDATES, MOST_CANDIDATES};
ghost use Rattle.ballots.specs.declared.limits.TheConstants.{MOST_LISTED};
ghost use Rattle.ballots.specs.Grammar.{contest_count, has_audited_size, number_up_to, ranking_of};
ghost use Rattle.ballot_ids.specs.Ids.{bit_of, counted, has_bit, page_number};
ghost use Rattle.ballot_ids.specs.Joined.{share_none};

/// A file has 1 to 64 contests.
pub fn contests()
    ensures none { contest_count (codes "0" ∷ []) ≡ None }
    ensures one { contest_count (codes "1" ∷ []) ≡ Some 1 }
    ensures most { contest_count (codes "64" ∷ []) ≡ Some 64 }
    ensures over { contest_count (codes "65" ∷ []) ≡ None }
{}

/// A contest's record lists 1 to 1,000 candidates.
pub fn listed()
    ensures none { number_up_to MOST_LISTED (codes "0") ≡ None }
    ensures most { number_up_to MOST_LISTED (codes "1000") ≡ Some 1000 }
    ensures over { number_up_to MOST_LISTED (codes "1001") ≡ None }
{}

/// An audited contest has `FEWEST_CANDIDATES` to `MOST_CANDIDATES`.
pub fn audited()
    ensures below { has_audited_size (replicate (FEWEST_CANDIDATES - 1) []) ≡ false }
    ensures fewest { has_audited_size (replicate FEWEST_CANDIDATES []) ≡ true }
    ensures most { has_audited_size (replicate MOST_CANDIDATES []) ≡ true }
    ensures over { has_audited_size (replicate (MOST_CANDIDATES + 1) []) ≡ false }
{}

/// Blank preferences are skipped, a repeated candidate counts at its first place, and an unknown candidate gives no ranking.
pub fn rankings()
    ensures repeated { ranking_of (codes "A" ∷ codes "B" ∷ [])
        (codes "B" ∷ [] ∷ codes "A" ∷ codes "B" ∷ []) ≡ Some (1 ∷ 0 ∷ []) }
    ensures empty { ranking_of (codes "A" ∷ codes "B" ∷ []) [] ≡ Some [] }
    ensures unknown { ranking_of (codes "A" ∷ codes "B" ∷ []) (codes "C" ∷ []) ≡ None }
{}

/// The last two digits of an id give its bit, here 4 * 16 + 2, and the digits before them give its page, so a hundred ids in a row are on
/// one page.
pub fn pages()
    ensures bit { bit_of (counted (codes "A-0042")) ≡ 66 }
    ensures same { page_number (codes "A-0099") ≡ page_number (codes "A-0042") }
    ensures next { page_number (codes "A-0142") ≡ (page_number (codes "A-0042") + 256) % 2 ^ 64 }
{}

/// Bit 66 is bit 2 of the second of a page's words.
pub fn bits()
    ensures set { has_bit (0 ∷ 4 ∷ 0 ∷ 0 ∷ []) 66 ≡ true }
    ensures others { has_bit (0 ∷ 4 ∷ 0 ∷ 0 ∷ []) 2 ≡ false }
    ensures apart { share_none (0 ∷ 4 ∷ 0 ∷ 0 ∷ []) (4 ∷ 2 ∷ 0 ∷ 0 ∷ []) ≡ true }
    ensures shared { share_none (0 ∷ 4 ∷ 0 ∷ 0 ∷ []) (0 ∷ 6 ∷ 0 ∷ 0 ∷ []) ≡ false }
{}

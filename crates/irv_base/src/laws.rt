//! The limits as equations, and the laws of tabulation, each of which holds for every value that it names. They have no code.
ghost use Rattle.std.specs.Prelude.{◌≡◌, ◌≤◌};
ghost use Rattle.irv_base.specs.Laws.{TabulatedExists, TabulatedIsOne, TabulatedIsPossible, FirstTieIsOne, TieOrNone, TieAndNone, NoTieIsOnePossible};
ghost use Rattle.irv_base.specs.Laws.{DecidedByTabulated, NoTieIsDecided, TieForTheWin};
ghost use Rattle.irv_base.specs.declared.limits.TheConstants as limit;

/// There is a tabulated order, whatever ties there are.
pub fn tabulated_exists()
    ensures { TabulatedExists }
{}

/// There is only one tabulated order.
pub fn tabulated_is_one()
    ensures { TabulatedIsOne }
{}

/// The tabulated order is a possible order.
pub fn tabulated_is_possible()
    ensures { TabulatedIsPossible }
{}

/// There is at most one first tie.
pub fn first_tie_is_one()
    ensures { FirstTieIsOne }
{}

/// There is a first tie, or no round has one.
pub fn tie_or_none()
    ensures { TieOrNone }
{}

/// There is never both a first tie and no tie.
pub fn tie_and_none()
    ensures { TieAndNone }
{}

/// Only one order is possible exactly if no round has a tie.
pub fn no_tie_is_one_possible()
    ensures { NoTieIsOnePossible }
{}

/// A contest is decided exactly if all possible orders elect the winner of the tabulated order.
pub fn decided_by_tabulated()
    ensures { DecidedByTabulated }
{}

/// A contest without a tie is decided.
pub fn no_tie_is_decided()
    ensures { NoTieIsDecided }
{}

/// A contest in which two candidates tie for the win isn't decided.
pub fn tie_for_the_win()
    ensures { TieForTheWin }
{}

/// The values of the limits.
pub fn limits()
    ensures room { limit.ROOM ≡ 32 }
    ensures fewest_candidates { limit.FEWEST_CANDIDATES ≡ 2 }
    ensures most_candidates { limit.MOST_CANDIDATES ≡ 32 }
    ensures most_records { limit.MOST_RECORDS ≡ 1000000 }
    ensures most_cards { limit.MOST_CARDS ≡ 10000000 }
    ensures most_draws { limit.MOST_DRAWS ≡ 100000 }
    ensures greatest_gamma { limit.GREATEST_GAMMA ≡ 500 }
    ensures greatest_limit { limit.GREATEST_LIMIT ≡ 999999 }
    ensures most_file_bytes { limit.MOST_FILE_BYTES ≡ 67108864 }
    ensures most_name_bytes { limit.MOST_NAME_BYTES ≡ 64 }
    ensures most_workers { limit.MOST_WORKERS ≡ 8 }
    ensures most_number_digits { limit.MOST_NUMBER_DIGITS ≡ 10 }
{}

/// There is room for all candidates of an audited contest.
pub fn candidates_have_room()
    ensures { limit.MOST_CANDIDATES ≤ limit.ROOM }
{}

//! The law of a bag, and the limits as equations. They have no code.
ghost use Rattle.std.specs.Prelude.{◌≡◌};
ghost use Rattle.set_tallies.specs.Laws.{OrderIsFree};
ghost use Rattle.set_tallies.specs.declared.bag.TheConstants.{ALWAYS_SUMMED, FEWEST_ROWS};
ghost use Rattle.set_tallies.specs.declared.cost.TheConstants.{ENTRIES_A_NUMBER, ENTRIES_A_LARGE_NUMBER, FEWEST_LARGE, ENTRIES_A_ROW};
ghost use Rattle.set_tallies.specs.declared.halves.TheConstants.{MOST_HALVED, LOW_CANDIDATES};
ghost use Rattle.set_tallies.specs.declared.rows.TheConstants.{MOST_ROWS};
ghost use Rattle.set_tallies.specs.declared.shares.TheConstants.{FEWEST_IN_A_SHARE};
ghost use Rattle.set_tallies.specs.declared.sums.TheConstants.{MOST_SUMMED};

/// A bag is the same for its records in any order.
pub fn order_is_free()
    ensures { OrderIsFree }
{}

/// The values of the limits.
pub fn limits()
    ensures rows { MOST_ROWS ≡ 262143 }
    ensures summed { MOST_SUMMED ≡ 20 }
    ensures halved { MOST_HALVED ≡ 65535 }
    ensures low_candidates { LOW_CANDIDATES ≡ 4 }
    ensures always_summed { ALWAYS_SUMMED ≡ 15 }
    ensures fewest_rows { FEWEST_ROWS ≡ 128 }
    ensures entries_a_number { ENTRIES_A_NUMBER ≡ 16 }
    ensures entries_a_large_number { ENTRIES_A_LARGE_NUMBER ≡ 48 }
    ensures fewest_large { FEWEST_LARGE ≡ 19 }
    ensures entries_a_row { ENTRIES_A_ROW ≡ 2048 }
    ensures fewest_in_a_share { FEWEST_IN_A_SHARE ≡ 4096 }
{}

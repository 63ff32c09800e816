//! The laws of cuts, and of the orders that bound them.
ghost use Rattle.fewest.specs.Laws.{CutCovers, CoversWhereCut, Fewest, CutIsFewest};

/// NEBs and NENs cover if they refute each step that leaves a cut.
pub fn cut_covers()
    ensures { CutCovers }
{}

/// A list covers exactly if it refutes each step that leaves some cut.
pub fn covers_where_cut()
    ensures { CoversWhereCut }
{}

/// A list that covers has at least as many NENs as there are orders that each need their own NEN.
pub fn fewest()
    ensures { Fewest }
{}

/// A cut with at most as many NENs as there are such orders has the fewest.
pub fn cut_is_fewest()
    ensures { CutIsFewest }
{}

// The laws of a front. Each law holds for every value that it names, and has no code.
ghost use Rattle.std.specs.Prelude.{◌≡◌};
ghost use Rattle.bound_search.specs.declared.limits.TheConstants.{MOST_EXPANDED, MOST_PIECES};
ghost use Rattle.bound_search.specs.Laws.{OrdersStayOpen, ClosedAbove, MostExpanded, LeastExpanded};

/// Each order of the piece below both the bound and the smallest margin found ends in an open suffix.
pub fn orders_stay_open()
    ensures { OrdersStayOpen }
{}

/// If no open suffix is below the bound, no order of the piece is below both the bound and the smallest margin found.
pub fn closed_above()
    ensures { ClosedAbove }
{}

/// The number of expanded suffixes is at most the number that the piece has below the greatest bound.
pub fn most_expanded()
    ensures { MostExpanded }
{}

/// If no open suffix is below the bound, the number of expanded suffixes is at least the number that the piece has below both the
/// bound and the smallest margin found.
pub fn least_expanded()
    ensures { LeastExpanded }
{}

/// The values of the limits.
pub fn limits()
    ensures expanded { MOST_EXPANDED ≡ 64 }
    ensures pieces { MOST_PIECES ≡ 1024 }
{}

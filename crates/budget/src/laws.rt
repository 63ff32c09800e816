//! The laws of budgets.
ghost use Rattle.budget.specs.Laws.{Limits};

/// The limits and the default of budgets.
pub fn limits()
    ensures { Limits }
{}

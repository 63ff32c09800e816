//! The laws of tasks.
ghost use Rattle.command.specs.Laws.{Limits};

/// The limits and defaults of a task's numbers.
pub fn limits()
    ensures { Limits }
{}

//! The laws of a check: each holds of every value that it names, and has no code.
ghost use Rattle.check_command.specs.Laws.{AcceptedIsYes};

/// A check of a file that the checker accepts ends with yes, and with nothing else.
pub fn accepted_is_yes()
    ensures { AcceptedIsYes }
{}

//! The laws of the commands on sessions: each holds of every value that it names, and has no code.
ghost use Rattle.session_commands.specs.Laws.{AcceptanceIsDecided};

/// The test by which a command continues is whether the checker accepts the file.
pub fn acceptance_is_decided()
    ensures { AcceptanceIsDecided }
{}

//! The laws of the session file. Each holds of every value that it names, and has no code.
ghost use Rattle.std.specs.Prelude.{◌≡◌};
ghost use Rattle.session_file.specs.Laws.{PrintedReadsBack, ReadIsSound, TextReadsBack};
ghost use Rattle.session_file.specs.declared.print.TheConstants.{VERSION};

/// What is printed reads as the session's JSON value.
pub fn text_reads_back()
    ensures { TextReadsBack }
{}

/// What is read keeps the invariants of a session.
pub fn read_is_sound()
    ensures { ReadIsSound }
{}

/// What is printed reads back as what was printed.
pub fn printed_reads_back()
    ensures { PrintedReadsBack }
{}

/// The version number of the format.
pub fn version()
    ensures { VERSION ≡ 1 }
{}

//! The laws of the claims file. Each one holds for every value that it names, and has no code.
ghost use Rattle.claims_file.specs.Laws.{AssertionFileIsRead, ReadIsSound};

/// What is read names only candidates.
pub fn read_is_sound()
    ensures { ReadIsSound }
{}

/// An assertion file is also a claims file for its own contest, and claims its assertions, whatever their margins are.
pub fn assertion_file_is_read()
    ensures { AssertionFileIsRead }
{}

//! The laws of the assertion file. Each one holds for every value that it names, and has no code.
ghost use Rattle.std.specs.Prelude.{◌≡◌};
ghost use Rattle.assertion_file.specs.Laws.{TextReadsBack, PrintedReadsBack, ReadIsSound, ReadIsPrinted};
ghost use Rattle.assertion_file.specs.declared.members.TheConstants.{MOST_NUMBER};
ghost use Rattle.assertion_file.specs.declared.print.TheConstants.{VERSION, PLAN_VERSION, COVER_VERSION};

/// What is printed reads as the file's JSON value.
pub fn text_reads_back()
    ensures { TextReadsBack }
{}

/// What is printed reads back as the file that was printed.
pub fn printed_reads_back()
    ensures { PrintedReadsBack }
{}

/// What is read obeys the rules of files.
pub fn read_is_sound()
    ensures { ReadIsSound }
{}

/// What is read is printed by a file that says the same thing.
pub fn read_is_printed()
    ensures { ReadIsPrinted }
{}

/// The numbers of the limits, and of the versions of the form.
pub fn limits()
    ensures most_number { MOST_NUMBER ≡ 4294967295 }
    ensures version { VERSION ≡ 1 }
    ensures plan_version { PLAN_VERSION ≡ 2 }
    ensures cover_version { COVER_VERSION ≡ 3 }
{}

//! The laws of lines: each holds for all words, and has no code.
ghost use Rattle.command_line.specs.Laws.{LinesHaveMeanings, LinesAreOfOne, LinesAreChecked, Examples, Searches, Samples, Trials, Meanings, SetsMeanings, NoLines};

/// Words are a line exactly if they have a meaning.
pub fn lines_have_meanings()
    ensures { LinesHaveMeanings }
{}

/// Words are a line of at most one command.
pub fn lines_are_of_one()
    ensures { LinesAreOfOne }
{}

/// The files of a line have names, and its numbers are within their limits.
pub fn lines_are_checked()
    ensures { LinesAreChecked }
{}

/// Values of options on both sides of each limit.
pub fn examples()
    ensures { Examples }
{}

/// Lines of `search`, with and without workers.
pub fn search_lines()
    ensures { Searches }
{}

/// Lines of `sample`, with and without what they need.
pub fn sample_lines()
    ensures { Samples }
{}

/// Lines of `trial`, with and without the number that they need.
pub fn trial_lines()
    ensures { Trials }
{}

/// Lines for each command, and what they ask for.
pub fn meanings()
    ensures { Meanings }
{}

/// Lines with a number of sets, and what they ask for.
pub fn sets_meanings()
    ensures { SetsMeanings }
{}

/// Words that aren't a line.
pub fn no_lines()
    ensures { NoLines }
{}

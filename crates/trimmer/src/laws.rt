//! What a trimmed file says. Each law holds of every value that it names, and has no code.
ghost use Rattle.trimmer.specs.Laws.{TrimmedIsAccepted, TrimmedIsPart, TrimmedIsIrredundant, NoPartCovers, TrimmedStays, TrimIsNeverSpent, TrimBySetsIsNeverSpent};

/// If a check accepts the file that was read, it also accepts the trimmed file, on the same ballots and with the same budget.
pub fn trimmed_is_accepted()
    ensures { TrimmedIsAccepted }
{}

/// The claims of a trimmed file are among those that were read, in the same order and with their draws. Everything else in the file is the
/// same, except the margin of a file without an order, which is the smallest margin of the claims that are left.
pub fn trimmed_is_part()
    ensures { TrimmedIsPart }
{}

/// For each claim of a trimmed file, there is an order that elects another candidate and that no other claim of the file refutes.
pub fn trimmed_is_irredundant()
    ensures { TrimmedIsIrredundant }
{}

/// So no proper part of its claims refutes every order that elects another candidate.
pub fn no_part_covers()
    ensures { NoPartCovers }
{}

/// Trimming a trimmed file again doesn't change it, if the budget doesn't run out.
pub fn trimmed_stays()
    ensures { TrimmedStays }
{}

/// With `2 * (n - 1)!` nodes, no trial of a file of n candidates runs out.
pub fn trim_is_never_spent()
    ensures { TrimIsNeverSpent }
{}

/// With `2^n - 3` sets, no trial runs out either.
pub fn trim_by_sets_is_never_spent()
    ensures { TrimBySetsIsNeverSpent }
{}

//! The laws of cards and their discrepancies. Each one holds for every value that it names, and has no code.
ghost use Rattle.assorters.specs.Laws.{ComparisonLaw, DiscrepanciesLaw, LinkedMarginLaw};

/// The sum of the cards' discrepancies shows whether the cards are seen to count for more than 1 each.
pub fn comparison()
    ensures { ComparisonLaw }
{}

/// Taking the cards by their numbers gives the list of all discrepancies, which are from 0 to 4.
pub fn by_number()
    ensures { DiscrepanciesLaw }
{}

/// If each ballot has a card, the margin over the linked records is the margin over the ballots.
pub fn linked_margin()
    ensures { LinkedMarginLaw }
{}

//! The laws of the fewest NENs. Each holds for every value that it names, and has no code.
ghost use Rattle.nen_cut.specs.Laws.{SetsAreFew};

/// The number of sets that NEBs leave standing is at most the number of sets of candidates, less three.
/// So a budget of that many never runs out.
pub fn sets_are_few()
    ensures { SetsAreFew }
{}

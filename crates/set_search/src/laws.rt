//! The laws of a search by sets. Each holds for every value that it names, and has no code.
ghost use Rattle.set_search.specs.Laws.{SetsAreFew, EnoughSets, CertifiedIsOne, SameByNodes, NeverBoth};

/// No contest needs more sets than the number of sets of candidates, less three.
pub fn sets_are_few()
    ensures { SetsAreFew }
{}

/// So a budget of this many sets never runs out.
pub fn enough_sets()
    ensures { EnoughSets }
{}

/// The records have one certificate, whatever the budget of sets.
pub fn certified_is_one()
    ensures { CertifiedIsOne }
{}

/// It is the one that walks through suffixes find.
pub fn same_by_nodes()
    ensures { SameByNodes }
{}

/// No budget gives both answers.
pub fn never_both()
    ensures { NeverBoth }
{}

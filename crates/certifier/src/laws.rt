//! What the answers of `certify` say together. Each law holds for every value that it names, and has no code.
ghost use Rattle.certifier.specs.Laws.{CertifiedIsOne, SpentIsOne, NeverBoth, EnoughNodes};

/// The records have one certificate.
pub fn certified_is_one()
    ensures { CertifiedIsOne }
{}

/// A `Spent` answer names one candidate.
pub fn spent_is_one()
    ensures { SpentIsOne }
{}

/// No budget gives both answers.
pub fn never_both()
    ensures { NeverBoth }
{}

/// A budget of `2 * (n - 1)!` never runs out.
pub fn enough_nodes()
    ensures { EnoughNodes }
{}

//! The laws of these texts: each holds of every value that it names, and has no code.
ghost use Rattle.audit_report.specs.Laws.{AllNeedLaw, ClosestClaimLaw};

/// All claims together need the greatest number of draws that one of them needs, or a full count if one of them needs it.
pub fn all_need()
    ensures { AllNeedLaw }
{}

/// All claims together need what the claim with the smallest margin needs.
pub fn closest_claim()
    ensures { ClosestClaimLaw }
{}

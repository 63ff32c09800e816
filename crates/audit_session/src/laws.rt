//! What the risk limit counts of the rounds of an audit. Each law holds of every value that it names, and has no code.
ghost use Rattle.audit_session.specs.Laws.{AdvancedIsCounted, NextIsCounted};

/// A session that `advance_by` made and that is signed off is one that the risk limit counts.
pub fn advanced_is_counted()
    ensures { AdvancedIsCounted }
{}

/// So is a session that continues with a round, isn't refused, and is signed off, whatever its earlier rounds say.
pub fn next_is_counted()
    ensures { NextIsCounted }
{}

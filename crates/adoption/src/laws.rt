//! What an adoption says. Each law holds of every value that it names, and has no code.
ghost use Rattle.adoption.specs.Laws.{AdoptedExactly, AdoptedIs, AdoptedIsAccepted, AnswerIsOne};

/// Claims that are adopted prove their winner. The file holds of the ballots, and its assertions are those of the claims, each once, in the
/// fixed order.
pub fn adopted_is()
    ensures { AdoptedIs }
{}

/// Claims are adopted exactly if they are true, refute every order that elects another candidate, and the budget is enough.
pub fn adopted_exactly()
    ensures { AdoptedExactly }
{}

/// The checker accepts an adopted file, within the same budget.
pub fn adopted_is_accepted()
    ensures { AdoptedIsAccepted }
{}

/// There is one answer.
pub fn answer_is_one()
    ensures { AnswerIsOne }
{}

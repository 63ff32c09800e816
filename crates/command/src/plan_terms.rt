// The terms for which the clean draws of an assertion file are planned.

/// The number of cards that an audit will draw from, its risk limit, and gamma.
#[derive(Clone, Copy)]
pub struct PlanTerms {
    /// The number of cards that the manifest will have.
    pub cards: u32,
    /// The risk limit, in millionths.
    pub limit: u32,
    /// The gamma, in thousandths.
    pub gamma: u32,
}

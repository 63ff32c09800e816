// What an assertion file says about its audit.
use std::marker::Model;

/// What an audit of the assertions takes if no card shows a discrepancy. `cards` are those of the manifest, `gamma` is in thousandths, and
/// the risk limit `limit` is in millionths. For each assertion, in the file's order, `draws` has the number of draws that confirm it, or
/// `None` if that takes a full count.
///
/// In a contract, it is the record of these values, with a list of the draws.
#[derive(Drop)]
pub struct PlanFacts {
    /// The number of cards in the manifest.
    pub cards: u32,
    /// Gamma, in thousandths.
    pub gamma: u32,
    /// The risk limit, in millionths.
    pub limit: u32,
    /// The draws of each assertion, or `None` for a full count.
    pub draws: Vec<Option<u32>>,
}

impl Model for PlanFacts {
    ghost use Rattle.assertion_file.specs.Content.{Plan};

    ghost Value = { Plan };

    ghost view = { λ p. record {
      cards = p.cards;
      gamma = p.gamma;
      limit = p.limit;
      draws = p.draws.items;
    } };
}

// What is seen on the drawn cards, apart from their records.
ghost use Rattle.std.specs.Prelude.{◌≡◌, ◌≤◌, None, map, IfOk, IfErr};
ghost use Rattle.audit_session.specs.Going.{all_seen, drawn_cards, seen_card};
ghost use Rattle.audit_session.specs.Refusals.{IsUnseen, unseen_draw};
ghost use Rattle.audit_session.specs.declared.seen.Unseen.TheVariants.{Memory as WantOfMemory};

use assorters::Seen;
use sampler::{Seed, draw};
use seen_file::SeenCards;
use std::alloc::{AllocFailed, Global};
use std::error::Error;
use std::fmt;

/// A drawn card by its number, counted from 1, and what people saw on it.
#[derive(Clone, Copy)]
pub struct SeenCard {
    /// The number of the card.
    pub card: u32,
    /// What people saw on the card.
    pub seen: Seen,
}

/// Why nothing can be said about the drawn cards.
#[derive(Clone, Copy, Debug, PartialEq, Eq)]
pub enum Unseen {
    /// The card of draw `k` has no record among the seen cards.
    NoRecord { card: u32, k: u32 },
    /// Memory could not be allocated.
    Memory,
}

impl fmt::Display for Unseen {
    fn fmt<W: fmt::Write>(&self, f: &mut fmt::Formatter<W>) -> fmt::Result {
        match self {
            Unseen::NoRecord { card, k } => {
                write!(f, "card {card} of draw {k} has no record of what is seen")
            }
            Unseen::Memory => f.write_str("out of memory"),
        }
    }
}

impl Error for Unseen {}

impl<T: Drop> From<AllocFailed<T>> for Unseen {
    ghost from_gives = { λ _ fault. fault ≡ WantOfMemory };

    fn from(_: AllocFailed<T>) -> Self {
        Unseen::Memory
    }
}

/// Returns the cards of the first draws out of this many cards, with what is seen on each, or the first draw whose card has no record.
pub fn drawn_seen(
    alloc: Global,
    seed: &Seed,
    cards: u32,
    seen: &SeenCards,
    draws: u32,
) -> Result<Vec<SeenCard>, Unseen>
    requires { 1 ≤ cards }
    ensures cards { IfOk result (λ all. all.items
        ≡ map (seen_card (all_seen seen.now cards)) (drawn_cards seed.now cards draws)) }
    ensures seen { IfOk result (λ _. unseen_draw seed.now cards seen.now draws ≡ None) }
    ensures refused { IfErr result (IsUnseen seed.now cards seen.now draws) }
{
    let mut all = Vec::new(alloc);
    for i in 0..draws {
        let k = i + 1;
        let card = draw(seed, u64::from(k), cards);
        let Some(of) = seen.get(card) else {
            return Err(Unseen::NoRecord { card, k });
        };
        all.push(SeenCard { card, seen: of })?;
    }
    Ok(all)
}

// The cards of a manifest, with what a ballot file has for them.
ghost use Rattle.std.specs.Prelude.{◌≡◌, ◌≤◌, ◌-◌, length, slice_get, Some, None, IfOk, IfErr};
ghost use Rattle.manifest.specs.Cards.{cards_of};
ghost use Rattle.manifest.specs.Linked.{RefusesLink, first_without_card, linked_of};
ghost use Rattle.manifest.specs.BallotNumbers.{AreNumbers, ballot_numbers};
ghost use Rattle.irv_base.specs.declared.limits.TheConstants.{MOST_CARDS};

use crate::link_fault::LinkFault;
use crate::manifest::Manifest;
use crate::recorded::Recorded;
use ballots::Ballots;
use irv_base::Rankings;
use std::alloc::Global;
use std::marker::Model;

// The number given for a card that has no ballot. Ballots are numbered from 1.
const NO_BALLOT: u32 = 0;

/// The cards of a manifest, each with what a ballot file has for it.
///
/// In a contract, it is the list of what is recorded for each card, in the order of the cards.
#[derive(Drop)]
pub struct Linked {
    numbers: Vec<u32>,
    rankings: Rankings,
}

impl Model for Linked {
    ghost use Rattle.std.specs.Prelude.{List, map};
    ghost use Rattle.manifest.specs.BallotNumbers.{AreNumbers, recorded_at};
    ghost use Rattle.manifest.specs.declared.recorded.Recorded.{Recorded};

    ghost Value = { List Recorded };

    ghost view = { λ l. map (recorded_at l.rankings) l.numbers.items };

    ghost invariant = { λ l. AreNumbers l.rankings l.numbers.items };
}

impl Linked {
    /// The number of cards.
    pub fn cards(&self) -> u32
        ensures all { result ≡ length self.now }
        ensures most { result ≤ MOST_CARDS }
    {
        self.numbers.len() as u32
    }

    /// What is recorded for the card with number `i`, from 1.
    pub fn recorded(&self, i: u32) -> Recorded
        requires first { 1 ≤ i }
        requires last { i ≤ length self.now }
        ensures { slice_get self.now (i - 1) ≡ Some result }
    {
        let number = self.numbers[i as usize - 1];
        if number == NO_BALLOT {
            return Recorded::Without;
        }
        Recorded::Ranked(self.rankings.ranking(number as usize - 1))
    }
}

// For each card, the number of its ballot.
fn numbers_of(alloc: Global, m: &Manifest, b: &Ballots) -> Result<Vec<u32>, LinkFault>
    ensures numbers { IfOk result (λ numbers.
        numbers.items ≡ ballot_numbers b.now.ids (cards_of m.now)) }
    ensures placed { IfOk result (λ _. first_without_card m.now b.now ≡ None) }
    ensures kept { IfOk result (λ numbers. AreNumbers b.now.rankings numbers.items) }
    ensures no_card { IfErr result (RefusesLink (first_without_card m.now b.now)) }
{
    let mut numbers = vec![in alloc; NO_BALLOT; m.cards() as usize]?;
    let ids = b.ids();
    let places = b.places();
    for i in 0..b.rankings().len() {
        let id = ids.at(i);
        let Some(card) = m.place(id) else {
            return Err(LinkFault::NoCard { at: places[i] });
        };
        numbers[card as usize - 1] = i as u32 + 1;
    }
    Ok(numbers)
}

/// Links the ballots of a file to the cards of a manifest. A card has the ballot whose id is the id of the card.
///
/// Rule M7 requires that the id of each ballot is the id of a card. If ballots break it, the result names the record of the first one that
/// does.
pub fn link(alloc: Global, m: &Manifest, b: &Ballots) -> Result<Linked, LinkFault>
    ensures linked { IfOk result (λ linked. linked ≡ linked_of m.now b.now) }
    ensures all_placed { IfOk result (λ _. first_without_card m.now b.now ≡ None) }
    ensures no_card { IfErr result (RefusesLink (first_without_card m.now b.now)) }
{
    let numbers = numbers_of(alloc, m, b)?;
    let rankings = b.rankings().copied(alloc)?;
    Ok(Linked { numbers, rankings })
}

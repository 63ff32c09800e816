// What is seen on cards, by card number.
ghost use Rattle.std.specs.Prelude.{◌≡◌, ◌<◌, ◌++◌, ◌∷◌, [], ℕ, slice_index_or, if◌then◌else◌, not, is_some, length, IfOk, OnOk, OnErr};
ghost use Rattle.seen_file.specs.Seen.{seen_in};

use assorters::Seen;
use irv_base::Memory;
use std::alloc::Global;
use std::marker::Model;

/// What is seen on some cards, by card number. Each card's number has a place in a table, so a card is found in constant time, whichever
/// cards there are. The table takes four to eight bytes for each card up to the largest number.
///
/// In a contract, it is the list of the cards' numbers, each once and with what is seen on the card, in the order in which they were put.
#[derive(Drop)]
pub struct SeenCards {
    entries: Vec<(u32, Seen)>,
    // the number of each card's entry, counted from 1, or 0 if it has none, at the card's number
    places: Vec<u32>,
}

impl Model for SeenCards {
    ghost use Rattle.seen_file.specs.Seen.{ArePlaces, Entry};
    ghost use Rattle.std.specs.Prelude.{List};

    ghost Value = { List Entry };

    ghost view = { λ s. s.entries.items };

    ghost invariant = { λ s. ArePlaces s.entries.items s.places.items };
}

// Makes enough places for the card to have one. The new places are free.
fn reach(places: &mut Vec<u32>, card: u32) -> Result<(), Memory>
    ensures within { OnOk result (card < length places.new.items) }
    ensures same { (other : ℕ)
        → slice_index_or places.new.items other 0 ≡ slice_index_or places.old.items other 0 }
{
    let card = card as usize;
    if card >= places.len() {
        places.resize(card + 1, 0)?;
    }
    Ok(())
}

impl SeenCards {
    /// Makes an empty list of cards.
    pub fn new(alloc: Global) -> SeenCards
        ensures { result ≡ [] }
    {
        SeenCards {
            entries: Vec::new(alloc),
            places: Vec::new(alloc),
        }
    }

    /// Puts a card with what is seen on it, unless the card is already there. Returns whether the card was new. If there are already
    /// `u32::MAX` cards, the answer is `Memory`.
    pub fn put(&mut self, card: u32, seen: Seen) -> Result<bool, Memory>
        ensures told { IfOk result (λ new. new ≡ not (is_some (seen_in self.old card))) }
        ensures put { IfOk result
            (λ new. self.new ≡ (if new then self.old ++ (card, seen) ∷ [] else self.old)) }
        ensures kept { OnErr result (self.new ≡ self.old) }
    {
        if self.get(card).is_some() {
            return Ok(false);
        }
        let entries = self.entries.len();
        if entries >= u32::MAX as usize {
            return Err(Memory);
        }
        reach(&mut self.places, card)?;
        self.entries.push((card, seen))?;
        self.places[card as usize] = entries as u32 + 1;
        Ok(true)
    }

    /// Returns what is seen on a card, if the card is there.
    pub fn get(&self, card: u32) -> Option<Seen>
        ensures { result ≡ seen_in self.now card }
    {
        let place = *self.places.get(card as usize)?;
        if place == 0 {
            return None;
        }
        let (_, seen) = self.entries[place as usize - 1];
        Some(seen)
    }
}

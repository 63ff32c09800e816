// The ids of batches, and which batch has which id.
ghost use Rattle.std.specs.Prelude.{◌≡◌, ◌≤◌, ◌<◌, ◌++◌, ◌∷◌, [], ℕ, List, Some, IfOk, IfSome, OnErr, if◌then◌else◌, length, not, position, slice_get};
ghost use Rattle.std.specs.BTreeMap.{get};
ghost use Rattle.std.specs.Cmp.Lexicographic.{slice_cmp};
ghost use Rattle.std.specs.Option.{unwrap_or};
ghost use Rattle.std.specs.Ordering.{is_eq, nat_cmp};
ghost use Rattle.irv_base.specs.Names.{is_among, is_same};
ghost use Rattle.ballot_ids.specs.Ids.{digest};
ghost use Rattle.manifest.specs.BatchIds.{place_in};

use crate::id_words::IdWords;
use irv_base::{Memory, Name};
use std::alloc::Global;
use std::collections::BTreeMap;
use std::hash::{FoldHasher, Hasher};
use std::marker::Model;

/// The ids of batches, all different.
///
/// Each id has a place in a table, and the first id at a place is found there. The author of a file can predict which ids share a place,
/// and a file may have many of them. So the ids that come to their place later are kept sorted, and no id is slow to find.
///
/// In a contract, it is the list of the ids.
#[derive(Drop)]
pub struct BatchIds {
    ids: Vec<Name>,
    // for each place, the number of the first id that has it, counted from 1, or 0
    table: Vec<u32>,
    // the indices of the ids that came later to their place
    later: BTreeMap<IdWords, u32>,
}

impl Model for BatchIds {
    ghost use Rattle.std.specs.Prelude.{List};
    ghost use Rattle.std.specs.BTreeMap.{get};
    ghost use Rattle.std.specs.Cmp.Lexicographic.{slice_cmp};
    ghost use Rattle.std.specs.Ordering.{nat_cmp};
    ghost use Rattle.irv_base.specs.Names.{Id};
    ghost use Rattle.manifest.specs.BatchIds.{IsTable};
    ghost use Rattle.manifest.specs.IdWords.{words_of};

    ghost Value = { List Id };

    ghost view = { λ b. b.ids.items };

    ghost invariant = { λ b. IsTable b.ids.items b.table.items
        (λ id. get (slice_cmp nat_cmp) b.later (words_of id)) };
}

fn digest(id: &[u8]) -> u64
    ensures { result ≡ digest id.now }
{
    let mut hasher = FoldHasher::default();
    hasher.write(id);
    hasher.finish()
}

// The place of an id in a table with this many places.
fn place_in(places: usize, id: &[u8]) -> usize
    requires { 1 ≤ places }
    ensures place { result ≡ place_in places id.now }
    ensures within { result < places }
{
    (digest(id) % places as u64) as usize
}

// The index that is kept under the words of an id. It is this one if there was none.
fn index_under(
    later: &mut BTreeMap<IdWords, u32>,
    words: IdWords,
    index: u32,
) -> Result<u32, Memory>
    ensures index { IfOk result (λ i.
        i ≡ unwrap_or (get (slice_cmp nat_cmp) later.old words) index) }
    ensures put { IfOk result (λ i. (others : List ℕ) → get (slice_cmp nat_cmp) later.new others
        ≡ (if is_eq (slice_cmp nat_cmp words others) then Some i
        else get (slice_cmp nat_cmp) later.old others)) }
    ensures same { OnErr result ((others : List ℕ) → get (slice_cmp nat_cmp) later.new others
        ≡ get (slice_cmp nat_cmp) later.old others) }
{
    Ok(*later.entry(words)?.or_insert(index))
}

impl BatchIds {
    /// No ids, with a table that has one place more than `places`.
    pub fn nothing(alloc: Global, places: usize) -> Result<BatchIds, Memory>
        ensures { IfOk result (λ ids. ids ≡ []) }
    {
        Ok(BatchIds {
            ids: Vec::new(alloc),
            table: vec![in alloc; 0; places.saturating_add(1)]?,
            later: BTreeMap::new(alloc),
        })
    }

    /// The id with index `i`.
    pub fn at(&self, i: usize) -> Name
        requires { i < length self.now }
        ensures { slice_get self.now i ≡ Some result }
    {
        self.ids[i]
    }

    /// The index of the id, if it is one of them.
    pub fn index_of(&self, id: &Name) -> Option<usize>
        ensures index { result ≡ position (is_same id.now) self.now }
        ensures within { IfSome result (λ i. i < length self.now) }
    {
        let first = self.table[place_in(self.table.len(), id.bytes())];
        if first == 0 {
            return None;
        }
        let i = first as usize - 1;
        if self.ids[i] == *id {
            return Some(i);
        }
        match self.later.get(&IdWords::of(id)) {
            Some(i) => Some(*i as usize),
            None => None,
        }
    }

    /// Appends an id if it isn't one of them, and returns whether it was appended. If there are `u32::MAX` ids already, the result is
    /// `Memory`.
    pub fn put(&mut self, id: Name) -> Result<bool, Memory>
        ensures new { IfOk result (λ new. new ≡ not (is_among self.old id)) }
        ensures put { IfOk result (λ new.
            self.new ≡ (if new then self.old ++ id ∷ [] else self.old)) }
    {
        let index = self.ids.len();
        if index >= u32::MAX as usize {
            return Err(Memory);
        }
        self.ids.reserve(1)?;
        let place = place_in(self.table.len(), id.bytes());
        let first = self.table[place];
        if first == 0 {
            self.table[place] = index as u32 + 1;
            self.ids.push_reserved(id);
            return Ok(true);
        }
        if self.ids[first as usize - 1] == id {
            return Ok(false);
        }
        if index_under(&mut self.later, IdWords::of(&id), index as u32)? != index as u32 {
            return Ok(false);
        }
        self.ids.push_reserved(id);
        Ok(true)
    }
}

// Ids in order, each once.
ghost use Rattle.std.specs.Prelude.{◌≡◌, ◌||◌, ◌↔◌, [], IfOk, OnOk, OnErr, IsTrue, not};
ghost use Rattle.irv_base.specs.Names.{Id, is_among, is_same};

use irv_base::Memory;
use std::alloc::Global;
use std::collections::BTreeSet;
use std::marker::Model;

/// Ids in order, each once. The time to find one doesn't depend on which ids they are.
///
/// In a contract, it is the list of the ids.
#[derive(Drop)]
pub struct Sorted {
    ids: BTreeSet<Vec<u8>>,
}

impl Model for Sorted {
    ghost use Rattle.std.specs.Prelude.{List, map};
    ghost use Rattle.irv_base.specs.Names.{Id};

    ghost Value = { List Id };

    ghost view = { λ sorted. map (λ id. id.items) sorted.ids.keys };
}

impl Sorted {
    /// No ids.
    pub fn new(alloc: Global) -> Sorted
        ensures { result ≡ [] }
    {
        Sorted {
            ids: BTreeSet::new(alloc),
        }
    }

    /// Whether there are no ids.
    pub fn is_empty(&self) -> bool
        ensures { IsTrue result ↔ (self.now ≡ []) }
    {
        self.ids.is_empty()
    }

    /// Whether the id is among these.
    pub fn has(&self, id: &[u8]) -> bool
        ensures { result ≡ is_among self.now id.now }
    {
        self.ids.contains(id)
    }

    /// Puts an id among these, and returns whether it is new.
    pub fn put(&mut self, alloc: Global, id: &[u8]) -> Result<bool, Memory>
        ensures new { IfOk result (λ new. new ≡ not (is_among self.old id.now)) }
        ensures put { OnOk result ((other : Id)
            → is_among self.new other ≡ (is_same id.now other || is_among self.old other)) }
        ensures same { OnErr result (self.new ≡ self.old) }
    {
        let new = self.ids.insert(Vec::from_slice(alloc, id)?)?;
        Ok(new)
    }
}

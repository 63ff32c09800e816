// Assertions with their margins, gathered in any order.
//
// Claims are kept in the order they arrive and sorted once, by their numbers and places. With fifteen near-equal candidates there are
// 113,026 claims; an ordered map takes nearly twice as long.
ghost use Rattle.std.specs.Prelude.{◌≡◌, [], map, IfOk, OnOk};
ghost use Rattle.std.specs.BTreeMap.{insert_entry};
ghost use Rattle.certifier.specs.Gathered.{with_all, claim_at};

use crate::in_order::in_order;
use assertions::{Assertion, Claim};
use irv_base::Memory;
use std::alloc::Global;
use std::marker::Model;

// The length to which a list grows before it is sorted: the walks of a contest of 15 candidates put fewer claims.
const FIRST_SORT: usize = 1 << 18;

/// Assertions with their margins, each once.
///
/// In a contract, they are the entries in the fixed order.
#[derive(Drop)]
pub struct Claims {
    // The entries as they were put: if several have the same assertion, the last one counts. Putting each in its place at once would take
    // longer.
    list: Vec<(Assertion, u32)>,
    // The length to which the list may grow before it is reduced to one entry for each assertion.
    most: usize,
}

impl Model for Claims {
    ghost use Rattle.std.specs.Prelude.{List, ℕ, []};
    ghost use Rattle.assertions.specs.declared.assertion.Assertion.{Assertion};
    ghost use Rattle.assertions.specs.contracts.assertion.AssertionOrd.TheImpl.{ghosts};

    ghost Value = { List (Assertion × ℕ) };

    ghost use Rattle.certifier.specs.Gathered.{with_all};

    ghost view = { λ claims. with_all ghosts.cmp [] claims.list.items };
}

impl Claims {
    /// No assertions yet.
    pub fn new(alloc: Global) -> Claims
        ensures { result ≡ [] }
    {
        Claims {
            list: Vec::new(alloc),
            most: FIRST_SORT,
        }
    }

    /// Puts the assertion among the claims, with this margin.
    pub fn put(&mut self, assertion: Assertion, margin: u32) -> Result<(), Memory>
        ensures { OnOk result (self.new
            ≡ insert_entry ⟦<Assertion as Ord>⟧.cmp self.old assertion margin) }
    {
        self.list.push((assertion, margin))?;
        if self.list.len() < self.most {
            return Ok(());
        }
        self.shorten()
    }

    /// Puts all of the other's claims among these.
    pub fn join(&mut self, other: &Claims) -> Result<(), Memory>
        ensures { OnOk result (self.new
            ≡ with_all ⟦<Assertion as Ord>⟧.cmp self.old other.now) }
    {
        self.list.extend_from_slice(other.list.as_slice())?;
        Ok(())
    }

    /// The claims as a list, in the fixed order.
    pub fn listed(&self, alloc: Global) -> Result<Vec<Claim>, Memory>
        ensures { IfOk result (λ list. list.items ≡ map claim_at self.now) }
    {
        in_order(alloc, self.list.as_slice())
    }

    /// Sorts the claims, so that they take less room, and less time to list.
    pub fn shorten(&mut self) -> Result<(), Memory>
        ensures { OnOk result (self.new ≡ self.old) }
    {
        let claims = in_order(*self.list.allocator(), self.list.as_slice())?;
        self.list.clear();
        for claim in &claims {
            self.list.push((claim.assertion, claim.margin))?;
        }
        self.most = FIRST_SORT.max(self.list.len().saturating_mul(2));
        Ok(())
    }
}

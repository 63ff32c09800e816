// Claims in the fixed order.
ghost use Rattle.std.specs.Prelude.{◌≡◌, List, [], map, IfOk, OnOk};
ghost use Rattle.certifier.specs.Gathered.{with_all};
ghost use Rattle.fewest_search.specs.InOrder.{entry_of, AreInOrder};

use assertions::{Assertion, Claim};
use certifier::listed;
use irv_base::Memory;
use std::alloc::Global;
use std::collections::BTreeMap;

// Puts the claims into the map under their assertions.
fn put_all(entries: &mut BTreeMap<Assertion, u32>, claims: &[Claim]) -> Result<(), Memory>
    ensures { OnOk result (entries.new.entries
        ≡ with_all ⟦<Assertion as Ord>⟧.cmp entries.old.entries (map entry_of claims.now)) }
{
    for claim in claims {
        entries.insert(claim.assertion, claim.margin)?;
    }
    Ok(())
}

/// Returns the claims in the fixed order. If several have the same assertion, the last one counts.
pub(crate) fn in_fixed_order(alloc: Global, claims: &[Claim]) -> Result<Vec<Claim>, Memory>
    ensures { IfOk result (λ list. AreInOrder claims.now list.items) }
{
    let mut entries = BTreeMap::new(alloc);
    put_all(&mut entries, claims)?;
    listed(alloc, &entries)
}

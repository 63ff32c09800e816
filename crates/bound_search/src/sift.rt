// The children of an expanded suffix: pruned, open, or found.
ghost use Rattle.std.specs.Prelude.{◌≡◌, ◌⊎◌, ◌<◌, ◌≤◌, All, Contains, IfOk, IfSome, OnOk, OnErr, Some, ℕ, Bool, count_by};
ghost use Rattle.std.specs.BinaryHeap.{heap_items, heap_len, IsHeap};
ghost use Rattle.suffix_tree.specs.Scores.{first_is_greatest};
ghost use Rattle.suffix_tree.specs.declared.scored.Scored.{Scored};
ghost use Rattle.bound_search.specs.Sifted.{IsPlaced, IsOpenChild, IsFoundChild, Replaced, least_after};

use irv_base::Memory;
use std::alloc::Global;
use std::collections::BinaryHeap;
use suffix_tree::Scored;

// The less hard of the order found before, if any, and one more order.
fn lesser(found: Option<Scored>, order: Scored) -> Scored
    ensures order { result.low ≤ order.low }
    ensures found { IfSome found (λ o. result.low ≤ o.low) }
    ensures one { (result ≡ order) ⊎ (found ≡ Some result) }
{
    match found {
        Some(other) => { if other.low <= order.low { other } else { order } }
        None => order,
    }
}

/// What happens to the children: those that stay open, and the least hard whole order.
#[derive(Drop)]
pub struct Sifted {
    /// The children that stay open, the lowest low first.
    pub fresh: BinaryHeap<Scored>,
    /// The least hard whole order below the bound, if there is one.
    pub found: Option<Scored>,
}

/// Prunes the children that the bound rules out, and sets aside the least hard whole order.
pub fn sift(alloc: Global, children: Vec<Scored>, bound: u32) -> Result<Sifted, Memory>
    ensures heap { IfOk result (λ s. IsHeap first_is_greatest (heap_items s.fresh)) }
    ensures each { IfOk result (λ s. (x : Scored) → Contains children.items x
        → IsPlaced bound (heap_items s.fresh) s.found x) }
    ensures stays { IfOk result (λ s. All (IsOpenChild children.items bound) (heap_items s.fresh)) }
    ensures counts { IfOk result (λ s. (p : Scored → Bool)
        → count_by p (heap_items s.fresh) ≤ count_by p children.items) }
    ensures found { IfOk result (λ s. IfSome s.found (IsFoundChild children.items bound)) }
{
    let mut rest = children;
    let mut fresh = BinaryHeap::new(alloc);
    let mut found: Option<Scored> = None;
    while let Some(child) = rest.pop() {
        if child.low < bound {
            if child.tail.is_whole() {
                found = Some(lesser(found, child));
            } else {
                fresh.push(child)?;
            }
        }
    }
    Ok(Sifted { fresh, found })
}

/// Removes the first suffix, and inserts the fresh ones. If memory runs out, nothing changes.
pub fn replace_first(
    suffixes: &mut BinaryHeap<Scored>,
    fresh: BinaryHeap<Scored>,
) -> Result<(), Memory>
    requires some { 0 < heap_len suffixes.old }
    requires old_heap { IsHeap first_is_greatest (heap_items suffixes.old) }
    requires fresh_heap { IsHeap first_is_greatest (heap_items fresh) }
    ensures heap { IsHeap first_is_greatest (heap_items suffixes.new) }
    ensures ok { OnOk result (Replaced (heap_items suffixes.old)
        (heap_items fresh) (heap_items suffixes.new)) }
    ensures err { OnErr result (heap_items suffixes.new ≡ heap_items suffixes.old) }
{
    let mut others = fresh;
    suffixes.reserve(others.len())?;
    let Some(_first) = suffixes.pop() else {
        unreachable!()
    };
    match suffixes.append(&mut others) {
        Ok(()) => Ok(()),
        Err(_) => unreachable!(),
    }
}

/// The smallest margin found, including what was found now.
pub fn lessened(least: u32, found: &Option<Scored>) -> u32
    ensures { result ≡ least_after least found.now }
{
    match found {
        Some(order) => least.min(order.low),
        None => least,
    }
}

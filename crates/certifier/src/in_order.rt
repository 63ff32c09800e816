// Assertions with their margins, sorted into the fixed order.
ghost use Rattle.std.specs.Prelude.{◌≡◌, [], map, IfOk};
ghost use Rattle.certifier.specs.Gathered.{with_all, claim_at};
ghost use Rattle.certifier.specs.InOrder.{AreMarks, AreSorted};

use assertions::{Assertion, Claim};
use irv_base::Memory;
use std::alloc::Global;

// An entry of a list: the number of its assertion, which each comparison needs, and its place.
#[derive(Clone, Copy)]
struct Mark {
    number: u64,
    place: usize,
}

// A mark for each entry.
fn marks(alloc: Global, list: &[(Assertion, u32)]) -> Result<Vec<Mark>, Memory>
    ensures { IfOk result (λ marks. AreMarks list.now list.now marks.items) }
{
    let mut marks = Vec::with_capacity(alloc, list.len())?;
    for place in 0..list.len() {
        let (assertion, _margin) = list[place];
        marks.push(Mark {
            number: assertion.number(),
            place,
        })?;
    }
    Ok(marks)
}

// The marks in increasing order; marks with equal numbers keep their order.
fn sorted(alloc: Global, list: &[(Assertion, u32)]) -> Result<Vec<Mark>, Memory>
    ensures { IfOk result (λ marks. AreSorted list.now marks.items) }
{
    let mut marks = marks(alloc, list)?;
    marks.sort_by_key(|mark| mark.number)?;
    Ok(marks)
}

/// The entries put in one by one, as claims in the fixed order. If several entries have the same assertion, the last one counts.
pub fn in_order(alloc: Global, list: &[(Assertion, u32)]) -> Result<Vec<Claim>, Memory>
    ensures { IfOk result (λ claims. claims.items
        ≡ map claim_at (with_all ⟦<Assertion as Ord>⟧.cmp [] list.now)) }
{
    let marks = sorted(alloc, list)?;
    let mut claims = Vec::with_capacity(alloc, marks.len())?;
    for i in 0..marks.len() {
        let mark = marks[i];
        if i + 1 == marks.len() || marks[i + 1].number != mark.number {
            let (assertion, margin) = list[mark.place];
            claims.push(Claim { assertion, margin })?;
        }
    }
    Ok(claims)
}

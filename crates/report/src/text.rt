// Candidates, orders and assertions, printed with the ids of a contest's candidates.
ghost use Rattle.std.specs.Prelude.{◌≡◌, ◌<◌, ◌≤◌, ◌++◌, ◌∷◌, [], if◌then◌else◌, length, filter, codes, All, IfOk, IsTrue, string_bytes};
ghost use Rattle.irv_base.specs.Candidates.{candidates, has};
ghost use Rattle.irv_base.specs.Names.{comma};
ghost use Rattle.irv_base.specs.declared.limits.TheConstants.{ROOM};
ghost use Rattle.assertions.specs.Assertions.{is_proper};
ghost use Rattle.assertion_file.specs.Ids.{ids_of};
ghost use Rattle.report.specs.Texts.{joined, order_text, set_text, assertion_text};

use assertion_file::id_of;
use assertions::Assertion;
use irv_base::{CandSet, Candidate, Memory, Name, Order};
use std::alloc::{AllocError, Global};

fn add_id(text: &mut String, is_first: bool, id: &str) -> Result<(), AllocError>
    ensures { IfOk result (λ _. string_bytes text.new ≡
        string_bytes text.old ++ (if is_first then id.now else comma ∷ id.now)) }
{
    if is_first {
        return text.push_str(id);
    }
    write!(text, ",{id}")
}

// The ids of these candidates, separated by commas.
fn joined(alloc: Global, names: &[Name], candidates: &[Candidate]) -> Result<String, Memory>
    requires { All (λ c. c < length names.now) candidates.now }
    ensures { IfOk result (λ text. string_bytes text ≡ joined (ids_of names.now candidates.now)) }
{
    let mut text = String::new(alloc);
    for (i, c) in candidates.iter().enumerate() {
        add_id(&mut text, i == 0, id_of(names, *c))?;
    }
    Ok(text)
}

/// Adds the candidate to the list if it is chosen.
pub(crate) fn choose(list: &mut Vec<Candidate>, c: Candidate, is_chosen: bool) -> Result<(), Memory>
    ensures { IfOk result (λ _. list.new.items ≡
        (if is_chosen then list.old.items ++ c ∷ [] else list.old.items)) }
{
    if !is_chosen {
        return Ok(());
    }
    list.push(c)?;
    Ok(())
}

// The members of a set that are below `n`, in increasing order.
fn members(alloc: Global, n: usize, set: CandSet) -> Result<Vec<Candidate>, Memory>
    requires { n ≤ ROOM }
    ensures { IfOk result (λ members. members.items ≡ filter (has set) (candidates n)) }
{
    let mut members = Vec::new(alloc);
    for i in 0..n {
        let c = Candidate(i as u8);
        choose(&mut members, c, set.has(c))?;
    }
    Ok(members)
}

/// Returns the ids of an order's candidates, separated by commas, with the first eliminated first.
pub fn order_text(alloc: Global, names: &[Name], o: &Order) -> Result<String, Memory>
    requires { length names.now ≡ length o.now }
    ensures { IfOk result (λ text. string_bytes text ≡ order_text names.now o.now) }
{
    joined(alloc, names, o.candidates())
}

/// Returns the ids of a set's members, separated by commas, in the contest's order.
pub fn set_text(alloc: Global, names: &[Name], set: CandSet) -> Result<String, Memory>
    requires { length names.now ≤ ROOM }
    ensures { IfOk result (λ text. string_bytes text ≡ set_text names.now set) }
{
    let members = members(alloc, names.len(), set)?;
    joined(alloc, names, &members)
}

fn neb_text(alloc: Global, w: &str, l: &str) -> Result<String, AllocError>
    ensures { IfOk result (λ text.
        string_bytes text ≡ codes "NEB " ++ w.now ++ codes " " ++ l.now) }
{
    format!(in alloc; "NEB {w} {l}")
}

fn nen_text(alloc: Global, w: &str, l: &str, rest: &str) -> Result<String, AllocError>
    ensures { IfOk result (λ text. string_bytes text ≡
        codes "NEN " ++ w.now ++ codes " " ++ l.now ++ codes " {" ++ rest.now ++ codes "}") }
{
    format!(in alloc; "NEN {w} {l} {{{rest}}}")
}

/// Returns an assertion as `NEB <w> <l>` or `NEN <w> <l> {<ids joined by commas>}`.
pub fn assertion_text(alloc: Global, names: &[Name], a: &Assertion) -> Result<String, Memory>
    requires few { length names.now ≤ ROOM }
    requires proper { IsTrue (is_proper (length names.now) a.now) }
    ensures { IfOk result (λ text. string_bytes text ≡ assertion_text names.now a.now) }
{
    match a {
        Assertion::Neb { w, l } => Ok(neb_text(alloc, id_of(names, *w), id_of(names, *l))?),
        Assertion::Nen { w, l, rest } => {
            let rest = set_text(alloc, names, *rest)?;
            Ok(nen_text(alloc, id_of(names, *w), id_of(names, *l), rest.as_str())?)
        }
    }
}

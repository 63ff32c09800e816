// A session for which memory ran out is unchanged, and continues.
ghost use Rattle.std.specs.Prelude.{◌≡◌, ◌≤◌, map, length, Err};
ghost use Rattle.irv_base.specs.declared.limits.TheConstants.{MOST_DRAWS};
ghost use Rattle.audit_session.specs.declared.fault.AdvanceFault.TheVariants.{Memory};
ghost use Rattle.raire_cases.specs.Going.{GoesOn};

use crate::trying::Trying;
use assertion_file::AssertionFile;
use audit_session::{AdvanceFault, SeenCards};
use manifest::Linked;
use std::alloc::Global;

/// Continues a session, and tries once more if memory ran out. The answer is that of one call on the session as it was before the first try.
/// It reports a lack of memory only if memory ran out in both tries.
pub fn go_on(
    alloc: Global,
    trying: &mut Trying,
    linked: &Linked,
    file: &AssertionFile,
    seen: &SeenCards,
    draws: u32,
) -> Result<bool, AdvanceFault>
    requires untried { trying.old.tries ≡ 0 }
    requires cards { trying.old.session.session.cards ≡ length linked.now }
    requires margins { trying.old.session.session.margins
        ≡ map (λ claim. claim.margin) file.now.claims }
    requires some { 1 ≤ draws }
    requires most { draws ≤ MOST_DRAWS }
    ensures gone { GoesOn trying.old.session file.now linked.now seen.now draws result
        trying.new.session }
    ensures twice { result ≡ Err Memory → trying.new.tries ≡ 2 }
{
    match trying.try_once(alloc, linked, file, seen, draws) {
        Err(AdvanceFault::Memory) => trying.try_once(alloc, linked, file, seen, draws),
        answer => answer,
    }
}

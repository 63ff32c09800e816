// A session, with the number of tries to continue it.
ghost use Rattle.std.specs.Prelude.{◌≡◌, ◌+◌, ◌≤◌, ◌<◌, map, length};
ghost use Rattle.irv_base.specs.declared.limits.TheConstants.{MOST_DRAWS};
ghost use Rattle.raire_cases.specs.Going.{GoesOn};

use assertion_file::AssertionFile;
use audit_session::{AdvanceFault, SeenCards, Session, advance};
use manifest::Linked;
use std::alloc::Global;

/// A session, with the number of tries to continue it. Only a try counts.
#[derive(Drop)]
pub struct Trying {
    session: Session,
    tries: u8,
}

impl Trying {
    /// Wraps a session that hasn't been tried.
    pub fn new(session: Session) -> Trying
        ensures session { result.session ≡ session }
        ensures none { result.tries ≡ 0 }
    {
        Trying { session, tries: 0 }
    }

    /// Tries once to continue the session up to this number of draws in all, with a call of `advance`.
    pub fn try_once(
        &mut self,
        alloc: Global,
        linked: &Linked,
        file: &AssertionFile,
        seen: &SeenCards,
        draws: u32,
    ) -> Result<bool, AdvanceFault>
        requires few { self.old.tries < 2 }
        requires cards { self.old.session.session.cards ≡ length linked.now }
        requires margins { self.old.session.session.margins
            ≡ map (λ claim. claim.margin) file.now.claims }
        requires some { 1 ≤ draws }
        requires most { draws ≤ MOST_DRAWS }
        ensures counted { self.new.tries ≡ self.old.tries + 1 }
        ensures gone { GoesOn self.old.session file.now linked.now seen.now draws result
            self.new.session }
    {
        self.tries += 1;
        advance(alloc, &mut self.session, linked, file, seen, draws)
    }
}

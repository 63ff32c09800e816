// The ids that have been met, each once.
ghost use Rattle.std.specs.Prelude.{◌≡◌, ◌++◌, ◌∷◌, ◌↔◌, [], List, IfOk, OnOk, IsTrue, true, not};
ghost use Rattle.irv_base.specs.Names.{Id, is_among};
ghost use Rattle.ballot_ids.specs.Joined.{ArePagesApart};
ghost use Rattle.ballot_ids.specs.Noted.{AreNoted};

use crate::pages::{Mark, Pages};
use crate::sorted::Sorted;
use irv_base::Memory;
use std::alloc::Global;

/// The ids that have been met, each once. They are distinguished by bits on pages, each of which keeps one of its ids. An id whose page is
/// for others is kept whole, in order, so that no choice of ids is slow to find.
#[derive(Drop)]
pub struct Noted {
    /// The pages on which ids are marked.
    pub pages: Pages,
    /// The ids whose page is for others.
    pub elsewhere: Sorted,
    alloc: Global,
}

impl Noted {
    /// No ids.
    pub fn nothing(alloc: Global) -> Noted
        ensures { AreNoted [] result }
    {
        Noted {
            pages: Pages::new(alloc),
            elsewhere: Sorted::new(alloc),
            alloc,
        }
    }

    /// Notes the id unless it was already there, and returns whether it is new.
    pub fn note(&mut self, id: &[u8]) -> Result<bool, Memory>
        ensures new { IfOk result (λ new. (met : List Id) → AreNoted met self.old
            → new ≡ not (is_among met id.now)) }
        ensures noted { IfOk result (λ new. (met : List Id) → AreNoted met self.old → new ≡ true
            → AreNoted (met ++ id.now ∷ []) self.new) }
    {
        match self.pages.mark(id)? {
            Mark::Fresh => Ok(true),
            Mark::Met => Ok(false),
            Mark::Elsewhere => {
                let new = self.elsewhere.put(self.alloc, id)?;
                Ok(new)
            }
        }
    }

    /// Whether the pages show that no id was met by both, so that they can be joined. They don't show it if an id is in the list, or if a
    /// page with the same number is for other ids.
    pub fn are_apart(&self, other: &Noted) -> bool
        ensures { IsTrue result ↔ ArePagesApart self.now other.now }
    {
        self.elsewhere.is_empty()
            && other.elsewhere.is_empty()
            && self.pages.are_apart(&other.pages)
    }

    /// Puts the ids that another has met among these.
    pub fn join(&mut self, other: &Noted) -> Result<(), Memory>
        requires { ArePagesApart self.old other.now }
        ensures { OnOk result ((own its : List Id) → AreNoted own self.old → AreNoted its other.now
            → AreNoted (own ++ its) self.new) }
    {
        self.pages.join(&other.pages)
    }
}

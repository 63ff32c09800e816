// The names of a contest's candidates.
ghost use Rattle.std.specs.Prelude.{◌≡◌, ◌++◌, ◌∷◌, [], IfOk, if◌then◌else◌, length, not};
ghost use Rattle.irv_base.specs.Names.{is_among};

use ballot_ids::Sorted;
use irv_base::{Memory, Name};
use std::alloc::Global;
use std::marker::Model;

/// Names, each once, in the order they came. They are also kept sorted, and are looked up there, so the author of a file can't pick names
/// that are slow to find.
///
/// In a contract, it is the list of the names.
#[derive(Drop)]
pub struct Listed {
    names: Vec<Name>,
    sorted: Sorted,
}

impl Model for Listed {
    ghost use Rattle.std.specs.Prelude.{◌≡◌, List};
    ghost use Rattle.irv_base.specs.Names.{Id, is_among};

    ghost Value = { List Id };

    ghost view = { λ l. l.names.items };

    ghost invariant = { λ l. (id : Id) → is_among l.sorted id ≡ is_among l.names.items id };
}

impl Listed {
    /// No names.
    pub fn nothing(alloc: Global) -> Listed
        ensures { result ≡ [] }
    {
        Listed {
            names: Vec::new(alloc),
            sorted: Sorted::new(alloc),
        }
    }

    /// The number of names.
    pub fn len(&self) -> usize
        ensures { result ≡ length self.now }
    {
        self.names.len()
    }

    /// The names, in the order they came.
    pub fn as_slice(&self) -> &[Name]
        ensures { result.now ≡ self.now }
    {
        self.names.as_slice()
    }

    /// Whether the id is one of them.
    pub fn has(&self, id: &[u8]) -> bool
        ensures { result ≡ is_among self.now id.now }
    {
        self.sorted.has(id)
    }

    /// Appends a name unless it is one of them, and returns whether it was appended.
    pub fn put(&mut self, alloc: Global, name: Name) -> Result<bool, Memory>
        ensures new { IfOk result (λ new. new ≡ not (is_among self.old name)) }
        ensures put { IfOk result (λ new.
            self.new ≡ (if new then self.old ++ name ∷ [] else self.old)) }
    {
        self.names.reserve(1)?;
        let new = self.sorted.put(alloc, name.bytes())?;
        if new {
            self.names.push_reserved(name);
        }
        Ok(new)
    }
}

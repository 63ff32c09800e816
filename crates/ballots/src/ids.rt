// Ids, stored one after another.
ghost use Rattle.std.specs.Prelude.{◌≡◌, ◌<◌, ◌++◌, ◌∷◌, [], Some, IfOk, OnOk, OnErr, length, slice_get};

use irv_base::{Lists, Memory};
use std::alloc::Global;
use std::marker::Model;

// The number of bytes that an id has, roughly. Room is made for this many at first, and for more as needed.
const ID_BYTES: usize = 16;

/// A list of ids. It takes up as many bytes as the ids have, plus four for each.
///
/// In a contract, it is the list.
#[derive(Drop)]
pub struct Ids {
    ids: Lists<u8>,
}

impl Model for Ids {
    ghost use Rattle.std.specs.Prelude.{List};
    ghost use Rattle.irv_base.specs.Names.{Id};

    ghost Value = { List Id };

    ghost view = { λ ids. ids.ids };
}

impl Ids {
    /// No ids, with room for this many.
    pub fn nothing(alloc: Global, room: usize) -> Result<Ids, Memory>
        ensures { IfOk result (λ ids. ids ≡ []) }
    {
        Ok(Ids {
            ids: Lists::nothing(alloc, room, room.saturating_mul(ID_BYTES))?,
        })
    }

    /// The number of ids.
    pub fn len(&self) -> usize
        ensures { result ≡ length self.now }
    {
        self.ids.len()
    }

    /// The id with number `i`, from 0.
    pub fn at(&self, i: usize) -> &[u8]
        requires { i < length self.now }
        ensures { slice_get self.now i ≡ Some result.now }
    {
        self.ids.at(i)
    }

    /// Appends the id. If more than `u32::MAX` bytes come before it, the result is `Memory`.
    pub fn push(&mut self, id: &[u8]) -> Result<(), Memory>
        ensures pushed { OnOk result (self.new ≡ self.old ++ id.now ∷ []) }
        ensures same { OnErr result (self.new ≡ self.old) }
    {
        self.ids.push(id)?;
        Ok(())
    }
}

// Where the bytes of files go.
ghost use Rattle.std.specs.Prelude.{◌≡◌, ℕ, List, None, Option, OnOk, ⊤};
ghost use Rattle.desk.specs.Taker.{TookMore};

use irv_base::Memory;

/// A taker takes the bytes of a file, piece by piece.
pub trait Taker {
    /// What the taker takes bytes for, as set when it was made. Taking bytes doesn't change it.
    ghost sought: { Self → Option (List ℕ) };

    /// The taker has taken these bytes.
    ghost has_taken: { Self → List ℕ → Type 0 };

    /// What the taker needs in order to take bytes, such as that threads may share what starts them.
    ghost ready: { Self → Type 0 };

    /// Takes the next bytes.
    fn take(&mut self, piece: &[u8]) -> Result<(), Memory>
        requires { ready self.old }
        ensures taken { OnOk result (TookMore sought has_taken self.old self.new piece.now) }
        ensures ready { ready self.new };
}

impl Taker for Vec<u8> {
    ghost sought = { λ bytes. None };

    ghost has_taken = { λ bytes taken. bytes.items ≡ taken };

    ghost ready = { λ bytes. ⊤ };

    fn take(&mut self, piece: &[u8]) -> Result<(), Memory> {
        self.extend_from_slice(piece)?;
        Ok(())
    }
}

// Assertions in the fixed order.
ghost use Rattle.std.specs.Prelude.{◌≡◌, ℕ, IfOk, All, IsTrue};
ghost use Rattle.assertions.specs.Assertions.{is_proper};
ghost use Rattle.adoption.specs.Adopted.{each_once};

use assertions::Assertion;
use irv_base::Memory;
use std::alloc::Global;

/// Returns the assertions of the list, each once, in the fixed order.
pub fn each_once(alloc: Global, list: &[Assertion]) -> Result<Vec<Assertion>, Memory>
    ensures { IfOk result (λ kept. (n : ℕ) → All (λ a. IsTrue (is_proper n a)) list.now →
        kept.items ≡ each_once n list.now) }
{
    let mut kept = list.to_vec(alloc)?;
    kept.sort_unstable();
    kept.dedup();
    Ok(kept)
}

// The rooms of the steps between sets.
ghost use Rattle.std.specs.Prelude.{◌≡◌, ◌<◌, ◌^◌, ℕ, false, IfOk};
ghost use Rattle.irv_base.specs.Candidates.{has};
ghost use Rattle.set_flow.specs.declared.room.Room.{Room};

use crate::room::Room;
use irv_base::{CandSet, Candidate, Memory};

/// The rooms of the steps between sets.
pub trait Steps {
    /// The number of candidates in the contest.
    ghost size: { Self → ℕ };

    /// Whether the steps answer by these rooms.
    ghost is_by: { Self → (ℕ → ℕ → Room) → Type 0 };

    /// The room of the step from the set by a candidate, who is outside it. The only error means that memory ran out.
    fn room(&mut self, set: CandSet, c: Candidate) -> Result<Room, Memory>
        requires set { set < 2 ^ size self.old }
        requires below { c < size self.old }
        requires outside { has set c ≡ false }
        ensures same { self.new ≡ self.old }
        ensures room { (rooms : ℕ → ℕ → Room) → is_by self.old rooms
            → IfOk result (λ room. room ≡ rooms set c) };
}

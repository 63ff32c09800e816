// The laws of the race.
ghost use Rattle.race_core.specs.Laws.{RaceLaw, ClosedLaw};

/// However the workers of a race take turns, once all pieces are closed, the bound is the smallest value.
pub fn racing()
    ensures { RaceLaw }
{}

/// The number of closed pieces shows whether all are closed.
pub fn closing()
    ensures { ClosedLaw }
{}

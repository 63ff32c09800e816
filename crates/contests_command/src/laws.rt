//! The laws of a contest among others: each holds of every value that it names, and has no code.
ghost use Rattle.contests_command.specs.Alone.{SaidAlone};
ghost use Rattle.contests_command.specs.Laws.{AuditsOnce, EnoughNodes};

/// What a ballot file says of a contest, its records also say without those of all other contests, except for the places of the ballots.
pub fn said_alone()
    ensures { SaidAlone }
{}

/// If the nodes are enough for a contest, its budget doesn't run out.
pub fn enough_nodes()
    ensures { EnoughNodes }
{}

/// If the nodes are enough for each contest, an audit of all contests has one end.
pub fn audits_once()
    ensures { AuditsOnce }
{}

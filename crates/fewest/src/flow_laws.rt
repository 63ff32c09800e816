//! The laws of flows between sets of candidates.
ghost use Rattle.fewest.specs.Growth.{MoveGrows, DrawGrows, StuckIsFull};
ghost use Rattle.fewest.specs.FlowLaws.{FlowLeaves, FlowBounds, FullIsValue, FullIsFewest, UnitGoesOn, UnitGoesBack};

/// The value, plus what enters a cut, equals what leaves it.
pub fn flow_leaves()
    ensures { FlowLeaves }
{}

/// A list that covers has at least as many NENs as the flow has units.
pub fn flow_bounds()
    ensures { FlowBounds }
{}

/// If nothing more can flow out of some sets, the value is the number of steps that leave the sets and that no NEB bars.
pub fn full_is_value()
    ensures { FullIsValue }
{}

/// The list with the NEBs and a NEN for each of these steps has the fewest NENs.
pub fn full_is_fewest()
    ensures { FullIsFewest }
{}

/// A unit moves forward over a step.
pub fn unit_goes_on()
    ensures { UnitGoesOn }
{}

/// A unit moves back over a step that carries something.
pub fn unit_goes_back()
    ensures { UnitGoesBack }
{}

/// A unit that moves from the empty set to the set of all makes a flow of one more.
pub fn move_grows()
    ensures { MoveGrows }
{}

/// So does a unit that is drawn from the set of all back to the empty set.
pub fn draw_grows()
    ensures { DrawGrows }
{}

/// If no unit can move on from some sets to another, nothing more can flow out of them.
pub fn stuck_is_full()
    ensures { StuckIsFull }
{}

// The laws of a race that threads share.
ghost use Rattle.shared_witness.specs.Laws.{OpeningKeeps, TakeKeeps, LookKeeps, PostKeeps, CloseKeeps, SplitKeeps, JoinKeeps};
ghost use Rattle.shared_witness.specs.Laws.{TicketIsSmall, TakeIsFresh, AllJoined, EachHasTaker, LeastHasPoster, JoiningLosesNothing, StartIsShown, HistoryIsShown, TakeIsEvent, LookIsEvent, PostIsEvent, CloseIsEvent};

/// The rule holds when a race is made.
pub fn opening_keeps()
    ensures { OpeningKeeps }
{}

/// A take keeps the rule.
pub fn take_keeps()
    ensures { TakeKeeps }
{}

/// A look keeps the rule.
pub fn look_keeps()
    ensures { LookKeeps }
{}

/// A post keeps the rule.
pub fn post_keeps()
    ensures { PostKeeps }
{}

/// A closing look keeps the rule.
pub fn close_keeps()
    ensures { CloseKeeps }
{}

/// Splitting a seat keeps the rule.
pub fn split_keeps()
    ensures { SplitKeeps }
{}

/// Joining a seat to another keeps the rule.
pub fn join_keeps()
    ensures { JoinKeeps }
{}

/// The ticket never wraps.
pub fn ticket_is_small()
    ensures { TicketIsSmall }
{}

/// A take gives a piece that no seat took before, or none if all were taken.
pub fn take_is_fresh()
    ensures { TakeIsFresh }
{}

/// A seat to which the seats of all workers were joined has all pieces and posts.
pub fn all_joined()
    ensures { AllJoined }
{}

/// If the pieces that the seats took are all the pieces, some seat took each piece.
pub fn each_has_taker()
    ensures { EachHasTaker }
{}

/// The bound is the first bound, or the smallest post of some seat.
pub fn least_has_poster()
    ensures { LeastHasPoster }
{}

/// If a seat is joined to another, that other seat has the looks of both and the pieces that both closed.
pub fn joining_loses_nothing()
    ensures { JoiningLosesNothing }
{}

/// New seats show the start of the race.
pub fn start_is_shown()
    ensures { StartIsShown }
{}

/// In whatever order the seats step, the rule holds, and the words and the views show the race after the same events.
pub fn history_is_shown()
    ensures { HistoryIsShown }
{}

/// A take is the event of that name.
pub fn take_is_event()
    ensures { TakeIsEvent }
{}

/// A look is the event of that name.
pub fn look_is_event()
    ensures { LookIsEvent }
{}

/// A post is the event of that name.
pub fn post_is_event()
    ensures { PostIsEvent }
{}

/// A closing look is the event of that name.
pub fn close_is_event()
    ensures { CloseIsEvent }
{}

// Which contests' ballots are kept, and which data is kept for them.
ghost use Rattle.std.specs.Prelude.{◌≡◌};
ghost use Rattle.ballot_reader.specs.Kept.{is_wanted, keeps_origins};

/// The contests of a file whose ballots are kept.
#[derive(Clone, Copy)]
pub enum Wanted {
    /// The contest at this place, from 0.
    One(usize),
    /// The contest at this place, without ids and places.
    VotesOf(usize),
    /// Every contest.
    All,
}

impl Wanted {
    /// Whether the ballots of the contest at a place are kept.
    pub fn has(self, place: usize) -> bool
        ensures { result ≡ is_wanted self place }
    {
        match self {
            Wanted::One(only) | Wanted::VotesOf(only) => place == only,
            Wanted::All => true,
        }
    }

    /// Whether the origins of the ballots are kept: their ids and places.
    pub fn keeps_origins(self) -> bool
        ensures { result ≡ keeps_origins self }
    {
        !matches!(self, Wanted::VotesOf(_))
    }

    // The number of ballots of the contest at a place for which room is made at first, if there is room for this many ballots of all these
    // contests.
    pub(crate) fn room(self, place: usize, contests: usize, room: usize) -> usize {
        match self {
            Wanted::One(only) | Wanted::VotesOf(only) if place == only => room,
            Wanted::One(_) | Wanted::VotesOf(_) => 0,
            Wanted::All => room.checked_div(contests).unwrap_or(0),
        }
    }
}

// A race that threads share, and the seats of its workers.
ghost use Rattle.std.specs.Prelude.{◌≡◌, ◌≢◌, ◌+◌, ◌≤◌, ◌<◌, ◌++◌, ◌∷◌, [], All, IfOk, IsTrue, not, min, length, replicate, fold};
ghost use Rattle.std.specs.Vec.Iter.{into_iter_items};
ghost use Rattle.irv_base.specs.Candidates.{is_in};
ghost use Rattle.irv_base.specs.declared.limits.TheConstants.{MOST_WORKERS};
ghost use Rattle.shared_witness.specs.View.{new_view, view_after_take, view_after_look, view_after_post, view_after_close, view_after_split, joined};
ghost use Rattle.shared_witness.specs.Moment.{EachOnce, least_posted, taken_pieces};
ghost use Rattle.shared_witness.specs.Steps.{Takes, Looks, Posts, Closes};
ghost use Rattle.shared_witness.specs.Race.{new_seat, TakesPiece, PostsValue, IsSharedRace, views_of};

use crate::steps::{close_word, look_word, post_word, take_word};
use crate::view::{BOUND, Joining, Splitting, Terms, View, WordSeat, Words};
use atomic_table::Table;
use irv_base::Memory;
use std::alloc::Global;
use std::marker::{Brand, Model};
use std::vec::IntoIter;

/// A race: a ticket that hands out pieces, and a bound that only falls. Workers share it by `&`, and each has its own seat.
///
/// After `new`, no call allocates memory, none waits for another, and none retries a step.
#[derive(Drop)]
pub struct Race {
    words: Words,
    pieces: u32,
}

impl Model for Race {
    ghost use Rattle.shared_witness.specs.Race.{SharedRace, IsSharedRace};

    ghost Value = { SharedRace };

    ghost view = { λ r. record { id = r.words.shared.table_id; terms = r.words.shared.key } };

    ghost invariant = { λ r. IsSharedRace r.pieces r.words.shared.table_id r.words.shared.key };
}

/// A worker's seat. Contracts see the race that it belongs to, and its view: what it took, closed, saw and posted.
#[derive(Drop)]
pub struct RaceSeat {
    seat: WordSeat,
}

impl Model for RaceSeat {
    ghost use Rattle.std.specs.Prelude.{◌≡◌, ◌+◌, []};
    ghost use Rattle.shared_witness.specs.Race.{Seated};

    ghost Value = { Seated };

    ghost view = { λ s. record { race = s.seat.table_id; view = s.seat.me.0 } };

    ghost invariant = { λ s. (s.seat.me.0.ends + s.seat.me.0.may ≡ 1) × (s.seat.me.1 ≡ []) };
}

/// A race that was just made, with a seat for each worker.
#[derive(Drop)]
pub struct Seats {
    /// The race, which all workers share.
    pub race: Race,
    /// A seat for each worker. No seat has been used yet.
    pub seats: Vec<RaceSeat>,
}

impl Race {
    /// Creates a race over the pieces 0, 1 and so on below `pieces`, with `first` as the bound, and a seat for each worker.
    pub fn new(alloc: Global, pieces: u32, first: u32, workers: u32) -> Result<Seats, Memory>
        requires pieces { 1 ≤ pieces }
        requires workers { (1 ≤ workers) × (workers ≤ MOST_WORKERS) }
        ensures terms { IfOk result (λ s. s.race.terms
            ≡ record { pieces = pieces; first = first; workers = workers }) }
        ensures seats { IfOk result (λ s. s.seats.items ≡ replicate workers (new_seat s.race)) }
    {
        let mut seats = Vec::with_capacity(alloc, workers as usize)?;
        let terms = Terms {
            pieces,
            first,
            workers,
        };
        let (words, mut rest) = Table::of_words(alloc, &[0, u64::from(first)], &terms)?;
        for _i in 1..workers {
            seats.push(split_off(&words, &mut rest))?;
        }
        seats.push(last_seat(rest))?;
        Ok(Seats {
            race: Race { words, pieces },
            seats,
        })
    }

    /// Takes the next piece, which no seat took before. If all were taken, returns the number of pieces, and the seat is then done.
    pub fn take(&self, seat: &mut RaceSeat) -> u32
        requires race { seat.old.race ≡ self.now.id }
        requires going { seat.old.view.ends ≡ 0 }
        ensures race { seat.new.race ≡ self.now.id }
        ensures most { result ≤ self.now.terms.pieces }
        ensures view { seat.new.view ≡ view_after_take self.now.terms.pieces result seat.old.view }
        ensures step { TakesPiece self.now.terms seat.old.view result seat.new.view }
        ensures fresh { result < self.now.terms.pieces
            → IsTrue (not (is_in seat.old.view.taken result)) }
        ensures open_piece { result < self.now.terms.pieces
            → IsTrue (is_in seat.new.view.taken result)
            × IsTrue (not (is_in seat.new.view.closed result)) }
        ensures few { length seat.new.view.taken ≤ self.now.terms.pieces }
    {
        take_word::<Brand>(&self.words, &mut seat.seat).min(u64::from(self.pieces)) as u32
    }

    /// Looks at the bound.
    pub fn look(&self, seat: &mut RaceSeat) -> u32
        requires race { seat.old.race ≡ self.now.id }
        ensures race { seat.new.race ≡ self.now.id }
        ensures least { (result ≤ self.now.terms.first) × (result ≤ seat.old.view.seen) }
        ensures view { seat.new.view ≡ view_after_look result seat.old.view }
        ensures step { Looks self.now.terms seat.old.view result seat.new.view }
    {
        look_word::<Brand>(&self.words, &mut seat.seat) as u32
    }

    /// Lowers the bound to `m`, if the bound is above `m`, and returns what it is then.
    pub fn post(&self, seat: &mut RaceSeat, m: u32) -> u32
        requires race { seat.old.race ≡ self.now.id }
        ensures race { seat.new.race ≡ self.now.id }
        ensures least { (result ≤ m) × (result ≤ self.now.terms.first)
            × (result ≤ seat.old.view.seen) }
        ensures view { seat.new.view ≡ view_after_post result m seat.old.view }
        ensures step { PostsValue self.now.terms seat.old.view m result seat.new.view }
    {
        post_word::<Brand>(&self.words, &mut seat.seat, m).min(u64::from(m)) as u32
    }

    /// Looks at the bound, and notes that piece `p`, which the seat took, is closed.
    pub fn close_piece(&self, seat: &mut RaceSeat, p: u32) -> u32
        requires race { seat.old.race ≡ self.now.id }
        requires taken { IsTrue (is_in seat.old.view.taken p) }
        requires open_piece { IsTrue (not (is_in seat.old.view.closed p)) }
        ensures race { seat.new.race ≡ self.now.id }
        ensures least { (result ≤ self.now.terms.first) × (result ≤ seat.old.view.seen) }
        ensures view { seat.new.view ≡ view_after_close result p seat.old.view }
        ensures step { Closes self.now.terms seat.old.view result seat.new.view p }
    {
        close_word::<Brand>(&self.words, &mut seat.seat, p) as u32
    }

    /// Ends the race and returns the bound: the smallest of the first bound and all posts, which is at most what any seat saw. If
    /// all seats are done, the pieces that they took are all the pieces, each once.
    pub fn finish(self, seats: Vec<RaceSeat>) -> u32
        requires race { All (λ s. s.race ≡ self.id) seats.items }
        requires each { length seats.items ≡ self.terms.workers }
        ensures bound { result ≡ least_posted self.terms.first (views_of seats.items) }
        ensures seen { All (λ s. result ≤ s.view.seen) seats.items }
        ensures taken { All (λ s. 1 ≤ s.view.ends) seats.items
            → EachOnce self.terms.pieces (taken_pieces (views_of seats.items)) }
    {
        let Race { words, pieces: _ } = self;
        let mut rest = seats.into_iter();
        let Some(first) = rest.next() else {
            unreachable!()
        };
        let RaceSeat { seat: mut all } = first;
        join_seats(&words, &mut all, rest);
        last_bound(words, all)
    }
}

/// The bound at the end, from the seat that has all ends.
fn last_bound(words: Words, all: WordSeat) -> u32
    requires table { all.table_id ≡ words.shared.table_id }
    requires words { IsSharedRace words.shared.key.pieces words.shared.table_id words.shared.key }
    requires share { all.me.0.ends + all.me.0.may ≡ words.shared.key.workers }
    ensures bound { result ≡ min words.shared.key.first all.me.0.posted }
    ensures seen { result ≤ all.me.0.seen }
    ensures taken { 1 ≤ all.me.0.ends → EachOnce words.shared.key.pieces all.me.0.taken }
{
    let closed = words.close_with(all);
    let bound = closed.word(BOUND);
    closed.free();
    bound as u32
}

/// Joins the seats to the first, one by one.
fn join_seats(words: &Words, first: &mut WordSeat, seats: IntoIter<RaceSeat>)
    requires table { first.old.table_id ≡ words.now.shared.table_id }
    requires two_words { words.now.shared.table_id.words ≡ 2 }
    requires share { first.old.me.0.ends + first.old.me.0.may ≢ 0 }
    requires seats { All (λ s. s.race ≡ words.now.shared.table_id) (into_iter_items seats) }
    ensures table { first.new.table_id ≡ first.old.table_id }
    ensures view { first.new.me
        ≡ (fold joined first.old.me.0 (views_of (into_iter_items seats)), first.old.me.1) }
    ensures shares { All (λ s. s.view.ends + s.view.may ≡ 1) (into_iter_items seats) }
{
    for seat in seats {
        join_to(words, first, seat);
    }
}

/// Joins a seat to the first.
fn join_to(words: &Words, first: &mut WordSeat, seat: RaceSeat)
    requires table { first.old.table_id ≡ words.now.shared.table_id }
    requires two_words { words.now.shared.table_id.words ≡ 2 }
    requires share { first.old.me.0.ends + first.old.me.0.may ≢ 0 }
    requires race { seat.race ≡ words.now.shared.table_id }
    ensures table { first.new.table_id ≡ first.old.table_id }
    ensures view { first.new.me ≡ (joined first.old.me.0 seat.view, first.old.me.1) }
    ensures share { seat.view.ends + seat.view.may ≡ 1 }
{
    let RaceSeat { seat: other } = seat;
    words.shared.join_seat::<Joining>(first, other);
}

/// Splits a seat for one worker off the seat of several.
fn split_off(words: &Words, rest: &mut WordSeat) -> RaceSeat
    requires table { rest.old.table_id ≡ words.now.shared.table_id }
    requires two_words { words.now.shared.table_id.words ≡ 2 }
    requires several { 2 ≤ rest.old.me.0.may }
    ensures table { rest.new.table_id ≡ rest.old.table_id }
    ensures view { rest.new.me ≡ (view_after_split rest.old.me.0, rest.old.me.1) }
    ensures seat { result ≡ record { race = rest.old.table_id; view = new_view 1 } }
{
    RaceSeat {
        seat: words.shared.split_seat::<Splitting>(rest),
    }
}

/// The seat that is left for the last worker.
fn last_seat(rest: WordSeat) -> RaceSeat
    requires { rest.me ≡ (new_view 1, []) }
    ensures { result ≡ record { race = rest.table_id; view = new_view 1 } }
{
    RaceSeat { seat: rest }
}

// The atomic steps on the two words. Each receives the race's terms, only for its proof.
ghost use Rattle.std.specs.Prelude.{◌≡◌, ◌≢◌, ◌+◌, ◌≤◌, IsTrue, not};
ghost use Rattle.shared_witness.specs.Steps.{Takes, Looks, Posts, Closes};
ghost use Rattle.irv_base.specs.Candidates.{is_in};

use crate::view::{BOUND, TICKET, View, WordSeat, Words};
use atomic_table::Play;
use std::marker::{Brand, PhantomData};

/// What a step receives: the terms of its race.
pub(crate) trait Told {
    ghost use Rattle.shared_witness.specs.declared.view.Terms.{Terms};

    ghost terms: { Terms };
}

impl Told for Brand {
    ghost terms = { record { pieces = 0; first = 0; workers = 0 } };
}

/// What a closing look receives: the terms of its race, and the piece.
pub(crate) trait ToldPiece {
    ghost use Rattle.std.specs.Prelude.{ℕ};
    ghost use Rattle.shared_witness.specs.declared.view.Terms.{Terms};

    ghost terms: { Terms };

    ghost piece: { ℕ };
}

impl ToldPiece for Brand {
    ghost terms = { record { pieces = 0; first = 0; workers = 0 } };

    ghost piece = { 0 };
}

struct Taking<T: Told> {
    of: PhantomData<T>,
}

impl<T: Told> Play<u8, View> for Taking<T> {
    ghost then = { λ s me found after. (after.1 ≡ me.1) × Takes T.terms me.0 found after.0 };
}

struct Looking<T: Told> {
    of: PhantomData<T>,
}

impl<T: Told> Play<u8, View> for Looking<T> {
    ghost then = { λ s me found after. (after.1 ≡ me.1) × Looks T.terms me.0 found after.0 };
}

struct Posting<T: Told> {
    of: PhantomData<T>,
}

impl<T: Told> Play<u8, View> for Posting<T> {
    ghost then = { λ s me found after.
        (after.1 ≡ me.1) × Posts T.terms me.0 found after.0 s.first };
}

struct Closing<T: ToldPiece> {
    of: PhantomData<T>,
}

impl<T: ToldPiece> Play<u8, View> for Closing<T> {
    ghost then = { λ s me found after.
        (after.1 ≡ me.1) × Closes T.terms me.0 found after.0 T.piece };
}

/// Adds one to the ticket, and returns what it was.
pub(crate) fn take_word<T: Told>(words: &Words, seat: &mut WordSeat) -> u64
    requires terms { T.terms ≡ words.now.shared.key }
    requires table { seat.old.table_id ≡ words.now.shared.table_id }
    requires two_words { words.now.shared.table_id.words ≡ 2 }
    requires may { 1 ≤ seat.old.me.0.may }
    ensures table { seat.new.table_id ≡ seat.old.table_id }
    ensures slots { seat.new.me.1 ≡ seat.old.me.1 }
    ensures step { Takes words.now.shared.key seat.old.me.0 result seat.new.me.0 }
{
    words.shared.fetch_add::<Taking<T>>(seat, TICKET, 1)
}

/// Loads the bound.
pub(crate) fn look_word<T: Told>(words: &Words, seat: &mut WordSeat) -> u64
    requires terms { T.terms ≡ words.now.shared.key }
    requires table { seat.old.table_id ≡ words.now.shared.table_id }
    requires two_words { words.now.shared.table_id.words ≡ 2 }
    requires share { seat.old.me.0.ends + seat.old.me.0.may ≢ 0 }
    ensures table { seat.new.table_id ≡ seat.old.table_id }
    ensures slots { seat.new.me.1 ≡ seat.old.me.1 }
    ensures step { Looks words.now.shared.key seat.old.me.0 result seat.new.me.0 }
{
    words.shared.load::<Looking<T>>(seat, BOUND)
}

/// Lowers the bound to the value, if the bound is above it, and returns what the bound was.
pub(crate) fn post_word<T: Told>(words: &Words, seat: &mut WordSeat, value: u32) -> u64
    requires terms { T.terms ≡ words.now.shared.key }
    requires table { seat.old.table_id ≡ words.now.shared.table_id }
    requires two_words { words.now.shared.table_id.words ≡ 2 }
    requires share { seat.old.me.0.ends + seat.old.me.0.may ≢ 0 }
    ensures table { seat.new.table_id ≡ seat.old.table_id }
    ensures slots { seat.new.me.1 ≡ seat.old.me.1 }
    ensures step { Posts words.now.shared.key seat.old.me.0 result seat.new.me.0 value }
{
    words
        .shared
        .fetch_min::<Posting<T>>(seat, BOUND, u64::from(value))
}

/// Loads the bound, and notes that the piece is closed.
pub(crate) fn close_word<T: ToldPiece>(words: &Words, seat: &mut WordSeat, piece: u32) -> u64
    requires terms { T.terms ≡ words.now.shared.key }
    requires piece { T.piece ≡ piece }
    requires table { seat.old.table_id ≡ words.now.shared.table_id }
    requires two_words { words.now.shared.table_id.words ≡ 2 }
    requires share { seat.old.me.0.ends + seat.old.me.0.may ≢ 0 }
    requires taken { IsTrue (is_in seat.old.me.0.taken piece) }
    requires open_piece { IsTrue (not (is_in seat.old.me.0.closed piece)) }
    ensures table { seat.new.table_id ≡ seat.old.table_id }
    ensures slots { seat.new.me.1 ≡ seat.old.me.1 }
    ensures step { Closes words.now.shared.key seat.old.me.0 result seat.new.me.0 piece }
{
    words.shared.load::<Closing<T>>(seat, BOUND)
}

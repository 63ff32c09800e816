// What is fixed about a race, what a seat knows of it, and the rule over both.

use atomic_table::{Join, Seat, Split, Table, TableRule};
use std::alloc::Global;
use std::collections::LinkedList;

/// What is fixed when a race is made: the number of its pieces, the first bound, and the number of workers.
#[derive(Clone, Copy, Debug)]
pub struct Terms {
    /// The number of pieces. They are numbered 0, 1 and so on below this.
    pub pieces: u32,
    /// The bound at the start, in votes.
    pub first: u32,
    /// The number of workers, each of whom has a seat.
    pub workers: u32,
}

/// What a seat knows, only in proofs and clauses: no value of this type is made.
pub struct View {
    /// The pieces that it took, in order.
    pub taken: LinkedList<u32>,
    /// The pieces that it closed, in order.
    pub closed: LinkedList<u32>,
    /// The smallest bound that it has seen.
    pub seen: u32,
    /// The smallest value that it posted.
    pub posted: u32,
    /// The number of times it looked at the bound.
    pub looks: u64,
    /// The number of its takes that found no piece.
    pub ends: u32,
    /// The number of its takes that may still find no piece.
    pub may: u32,
}

/// The rule that holds for the two words and all views between any two steps.
pub(crate) struct Rule;

impl TableRule<u8, View, Terms> for Rule {
    ghost use Rattle.shared_witness.specs.Words.{Holds};
    ghost use Rattle.shared_witness.specs.View.{new_view};

    ghost holds = { Holds };

    ghost first = { λ t. new_view t.workers };
}

pub(crate) struct Splitting;

impl Split<View> for Splitting {
    ghost use Rattle.shared_witness.specs.View.{view_after_split, new_view};

    ghost left = { view_after_split };

    ghost right = { λ v. new_view 1 };
}

pub(crate) struct Joining;

impl Join<View> for Joining {
    ghost use Rattle.shared_witness.specs.View.{joined, spent_view};

    ghost both = { joined };

    ghost spent = { spent_view };
}

pub(crate) type Words = Table<u8, View, Terms, Rule, Global>;

pub(crate) type WordSeat = Seat<u8, View>;

/// The place of the word that counts the takes.
pub(crate) const TICKET: usize = 0;

/// The place of the word that is the bound.
pub(crate) const BOUND: usize = 1;

// The assorters.
//
// A struct's fact can't cite the calls of a type parameter bounded by `Fn`. So an assorter keeps the closure, and each method that calls it
// requires again that it may be called on every ranking and returns 0, 1 or 2.
ghost use Rattle.std.specs.Prelude.{◌≡◌, ◌≤◌, ◌*◌, ℕ, List, sum_by};
ghost use Rattle.assorters.specs.Calls.{AnswersValues, Computes};
ghost use Rattle.assorters.specs.Cards.{discrepancy, margin_over, recorded_value, seen_value};
ghost use Rattle.irv_base.specs.declared.limits.TheConstants.{MOST_CARDS};

use crate::Seen;
use irv_base::Ranking;
use manifest::{Linked, Recorded};

/// The largest value.
pub const GREATEST_VALUE: u8 = 2;

// What a card without a record counts as.
const WITHOUT_RECORD: u8 = 1;

// What a card that can't be found counts as.
const NOT_FOUND: u8 = 0;

/// A function of rankings whose values are 0, 1 and 2: a closure that may be called on every ranking.
///
/// What its calls say is true of each function of rankings that the closure computes.
#[derive(Drop)]
pub struct Assorter<F: Fn(&Ranking) -> u8> {
    closure: F,
}

impl<F: Fn(&Ranking) -> u8> Assorter<F> {
    /// The assorter of a closure.
    pub fn new(closure: F) -> Assorter<F>
        requires callable { F.IsAlwaysCallable closure }
        requires values { AnswersValues F.Fn closure }
        ensures { result.closure ≡ closure }
    {
        Assorter { closure }
    }

    /// What a ranking counts as.
    pub fn value(&self, r: &Ranking) -> u8
        requires callable { F.IsAlwaysCallable self.now.closure }
        requires values { AnswersValues F.Fn self.now.closure }
        ensures value { (value : List ℕ → ℕ) → Computes F.Fn self.now.closure value
            → result ≡ value r.now }
        ensures most { result ≤ GREATEST_VALUE }
    {
        (self.closure)(r)
    }

    // What a card counts as, given what is recorded for it.
    fn recorded_value(&self, recorded: &Recorded) -> u8
        requires callable { F.IsAlwaysCallable self.now.closure }
        requires values { AnswersValues F.Fn self.now.closure }
        ensures value { (value : List ℕ → ℕ) → Computes F.Fn self.now.closure value
            → result ≡ recorded_value value recorded.now }
        ensures most { result ≤ GREATEST_VALUE }
    {
        match recorded {
            Recorded::Ranked(ranking) => self.value(ranking),
            Recorded::Without => WITHOUT_RECORD,
        }
    }

    // What a card counts as, given what is seen of it.
    fn seen_value(&self, seen: &Seen) -> u8
        requires callable { F.IsAlwaysCallable self.now.closure }
        requires values { AnswersValues F.Fn self.now.closure }
        ensures value { (value : List ℕ → ℕ) → Computes F.Fn self.now.closure value
            → result ≡ seen_value value seen.now }
        ensures most { result ≤ GREATEST_VALUE }
    {
        match seen {
            Seen::Found(ranking) => self.value(ranking),
            Seen::Missing => NOT_FOUND,
        }
    }

    // The sum of what all cards count as recorded.
    fn recorded_total(&self, l: &Linked) -> u32
        requires callable { F.IsAlwaysCallable self.now.closure }
        requires values { AnswersValues F.Fn self.now.closure }
        ensures total { (value : List ℕ → ℕ) → Computes F.Fn self.now.closure value
            → result ≡ sum_by (recorded_value value) l.now }
        ensures most { result ≤ GREATEST_VALUE * MOST_CARDS }
    {
        let mut total = 0;
        for i in 0..l.cards() {
            total += u32::from(self.recorded_value(&l.recorded(i + 1)));
        }
        total
    }

    /// The margin over all cards: the sum of what they count as recorded, minus 1 for each card.
    pub fn margin(&self, l: &Linked) -> i64
        requires callable { F.IsAlwaysCallable self.now.closure }
        requires values { AnswersValues F.Fn self.now.closure }
        ensures { (value : List ℕ → ℕ) → Computes F.Fn self.now.closure value
            → result ≡ margin_over value l.now }
    {
        i64::from(self.recorded_total(l)) - i64::from(l.cards())
    }

    /// The discrepancy of a card: 2, minus what it counts as recorded, plus what it counts as seen.
    pub fn overstated(&self, rec: &Recorded, seen: &Seen) -> u8
        requires callable { F.IsAlwaysCallable self.now.closure }
        requires values { AnswersValues F.Fn self.now.closure }
        ensures value { (value : List ℕ → ℕ) → Computes F.Fn self.now.closure value
            → result ≡ discrepancy value rec.now seen.now }
        ensures most { result ≤ 2 * GREATEST_VALUE }
    {
        GREATEST_VALUE - self.recorded_value(rec) + self.seen_value(seen)
    }
}

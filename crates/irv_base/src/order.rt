// Elimination orders.
ghost use Rattle.std.specs.Prelude.{◌≡◌, ◌<◌, ◌≤◌, ◌-◌, length, slice_get, IfOk, IfErr, IsTrue};
ghost use Rattle.irv_base.specs.Orders.{is_order, Refuses};
ghost use Rattle.irv_base.specs.declared.limits.TheConstants.{ROOM};

use crate::{Candidate, ROOM};
use std::error::Error;
use std::fmt;
use std::marker::Model;

/// Why a list of numbers is not an order.
#[derive(Clone, Copy, Debug, PartialEq, Eq)]
pub enum BadOrder {
    /// The list has this many numbers.
    Length(u64),
    /// The number at this place, from 0, is not a candidate.
    Range(u64),
    /// The number at this place, from 0, also appears at an earlier place.
    Repeated(u64),
}

impl fmt::Display for BadOrder {
    fn fmt<W: fmt::Write>(&self, f: &mut fmt::Formatter<W>) -> fmt::Result {
        match self {
            BadOrder::Length(found) => write!(f, "an order with {found} numbers"),
            BadOrder::Range(i) => write!(f, "no candidate at place {i}"),
            BadOrder::Repeated(i) => write!(f, "a candidate again at place {i}"),
        }
    }
}

impl Error for BadOrder {}

/// An elimination order. It has each candidate of a contest once, first eliminated first, so the winner is last.
///
/// In a contract, an order is the list of its candidates.
#[derive(Clone, Copy)]
pub struct Order {
    len: u8,
    places: [Candidate; ROOM as usize],
}

impl Model for Order {
    ghost use Rattle.std.specs.Prelude.{ℕ, List, ◌-◌, ◌++◌, take, length, replicate, IsTrue};
    ghost use Rattle.std.proofs.Common.{ap, sym, ◌∙◌};
    ghost use Rattle.irv_base.specs.Places.{IsOrder};
    ghost use Rattle.irv_base.specs.declared.limits.TheConstants.{ROOM};

    ghost Value = { List ℕ };

    ghost view = { λ o. take o.len o.places };

    ghost invariant = { λ o. IsOrder o.len o.places };

    ghost inverse = { λ v. record { len = length v; places = v ++ replicate (ROOM - length v) 0 } };

    ghost inverse_ok = { λ o h i. record {
      len = h.long i;
      places = (ap (λ n. take o.len o.places ++ replicate (ROOM - n) 0) h.long
          ∙ sym h.padded) i;
    } };
}

impl Order {
    /// Returns the order of `n` candidates with these numbers, or the first reason why they don't form an order.
    pub fn read(n: u32, list: &[u8]) -> Result<Order, BadOrder>
        requires some { 1 ≤ n }
        requires room { n ≤ ROOM }
        ensures order { IfOk result (λ order. order ≡ list.now) }
        ensures valid { IfOk result (λ _. IsTrue (is_order n list.now)) }
        ensures refused { IfErr result (Refuses n list.now) }
    {
        if list.len() as u64 != u64::from(n) {
            return Err(BadOrder::Length(list.len() as u64));
        }
        let mut places = [Candidate(0); ROOM as usize];
        for i in 0..list.len() {
            if u32::from(list[i]) >= n {
                return Err(BadOrder::Range(i as u64));
            }
            if list[..i].contains(&list[i]) {
                return Err(BadOrder::Repeated(i as u64));
            }
            places[i] = Candidate(list[i]);
        }
        Ok(Order {
            len: list.len() as u8,
            places,
        })
    }

    // Turns a list of all candidates into an order.
    pub(crate) fn of_all(list: &[Candidate]) -> Order
        requires some { 0 < length list.now }
        requires room { length list.now ≤ ROOM }
        requires whole { IsTrue (is_order (length list.now) list.now) }
        ensures { result ≡ list.now }
    {
        let mut places = [Candidate(0); ROOM as usize];
        places[..list.len()].copy_from_slice(list);
        Order {
            len: list.len() as u8,
            places,
        }
    }

    /// The candidate eliminated in round `i`, from 0, or the winner at the last place.
    pub fn at(&self, i: u32) -> Candidate
        requires { i < length self.now }
        ensures { slice_get self.now i ≡ Some result }
    {
        self.places[i as usize]
    }

    /// The number of candidates.
    pub fn len(&self) -> u32
        ensures same { result ≡ length self.now }
        ensures some { 1 ≤ result }
        ensures room { result ≤ ROOM }
    {
        u32::from(self.len)
    }

    /// The candidates, first eliminated first.
    pub fn candidates(&self) -> &[Candidate]
        ensures same { result.now ≡ self.now }
        ensures order { IsTrue (is_order (length self.now) self.now) }
    {
        &self.places[..usize::from(self.len)]
    }
}

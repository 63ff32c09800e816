// What was found among the suffixes that end in some of the candidates, and how two such parts are joined.
ghost use Rattle.std.specs.Prelude.{◌≡◌, ℕ, Bool, None, [], List, IfOk};
ghost use Rattle.certifier.specs.Parts.{IsPart, in_either, lesser, first_end, order_of, spent_at};
ghost use Rattle.certifier.specs.declared.gather.Task.{Task};

use crate::claims::Claims;
use irv_base::{Candidate, Memory, Order};
use std::alloc::Global;

/// How a walk for the order ends.
#[derive(Clone, Copy)]
pub struct OrderEnd {
    /// The candidate that the suffixes of the walk end in.
    pub last: Candidate,
    /// The order that the walk reaches, or none if it is over the budget.
    pub order: Option<Order>,
}

/// What was found among the suffixes that end in some of the candidates.
#[derive(Drop)]
pub struct Part {
    /// The assertions with their margins.
    pub claims: Claims,
    /// The least candidate whose walk for the assertions is over the budget.
    pub over: Option<Candidate>,
    /// The end of a walk for the order: that of the least candidate whose walk has one.
    pub end: Option<OrderEnd>,
}

// The lesser of the two candidates.
fn lesser(a: Option<Candidate>, b: Option<Candidate>) -> Option<Candidate>
    ensures { result ≡ lesser a b }
{
    match a {
        None => b,
        Some(first) => match b {
            Some(second) if second.0 < first.0 => b,
            _ => a,
        },
    }
}

// The end of the lesser candidate.
fn first_end(a: Option<OrderEnd>, b: Option<OrderEnd>) -> Option<OrderEnd>
    ensures { result ≡ first_end a b }
{
    match a {
        None => b,
        Some(first) => match b {
            None => Some(first),
            Some(second) => {
                if second.last.0 < first.last.0 {
                    Some(second)
                } else {
                    Some(first)
                }
            }
        },
    }
}

impl Part {
    /// What is found among no suffixes.
    pub fn new(alloc: Global) -> Part
        ensures claims { result.claims ≡ [] }
        ensures over { result.over ≡ None }
        ensures end { result.end ≡ None }
    {
        Part {
            claims: Claims::new(alloc),
            over: None,
            end: None,
        }
    }

    /// What was found in either part.
    pub fn join(self, other: Part) -> Result<Part, Memory>
        ensures { IfOk result (λ joined.
            (n : ℕ) (records : List (List ℕ)) (task : Task) (own its : ℕ → Bool)
            → IsPart n records task own self → IsPart n records task its other
            → IsPart n records task (in_either own its) joined) }
    {
        let Part {
            mut claims,
            over,
            end,
        } = self;
        claims.join(&other.claims)?;
        Ok(Part {
            claims,
            over: lesser(over, other.over),
            end: first_end(end, other.end),
        })
    }

    /// The least candidate for whom a walk is over the budget.
    pub fn spent(&self) -> Option<Candidate>
        ensures { result ≡ lesser self.now.over (spent_at self.now.end) }
    {
        let end = match self.end {
            Some(OrderEnd { last, order: None }) => Some(last),
            _ => None,
        };
        lesser(self.over, end)
    }

    /// The order that the walks reach.
    pub fn order(&self) -> Option<Order>
        ensures { result ≡ order_of self.now.end }
    {
        match self.end {
            Some(end) => end.order,
            None => None,
        }
    }
}

// Claims in the layout that is printed. No clause says what is read of them, so it is a guess.
ghost use Rattle.std.specs.Prelude.{◌≡◌, ◌≤◌, length};
ghost use Rattle.irv_base.specs.declared.limits.TheConstants.{ROOM};

use crate::claims::Planned;
use assertions::Assertion;
use irv_base::{CandSet, Candidate, Name, candidate_named};

/// The part of the printed claims that hasn't been read.
#[derive(Drop)]
pub struct ClaimsLeft<'a> {
    names: &'a [Name],
    left: &'a [u8],
    // The winner and the loser of the previous claim. The next claim most likely has the same ones, or the candidates that follow them.
    w: Candidate,
    l: Candidate,
    ghost few: { length names.now ≤ ROOM },
}

// The candidate with that id, looked up from this place on, and then from the front.
fn candidate_from(names: &[Name], from: usize, id: &[u8]) -> Option<Candidate>
    requires { length names.now ≤ ROOM }
{
    if from < names.len()
        && let Some(c) = candidate_named(&names[from..], id)
    {
        return Some(Candidate(from as u8 + c.0));
    }
    candidate_named(names, id)
}

impl<'a> ClaimsLeft<'a> {
    /// The claims in this text, between candidates with these names.
    pub fn new(names: &'a [Name], text: &'a [u8]) -> ClaimsLeft<'a>
        requires { length names.now ≤ ROOM }
    {
        ClaimsLeft {
            names,
            left: text,
            w: Candidate(0),
            l: Candidate(0),
        }
    }

    /// Whether nothing is left.
    pub fn is_empty(&self) -> bool {
        self.left.is_empty()
    }

    /// Skips these bytes, if they come next.
    pub fn pass(&mut self, bytes: &[u8]) -> Option<()> {
        self.left = self.left.strip_prefix(bytes)?;
        Some(())
    }

    // Reads the next number.
    fn number(&mut self) -> Option<u32> {
        let end = self.left.iter().position(|b| !b.is_ascii_digit())?;
        let (digits, left) = self.left.split_at(end);
        self.left = left;
        let mut number: u32 = 0;
        for digit in digits {
            number = number.wrapping_mul(10).wrapping_add(u32::from(*digit & 15));
        }
        Some(number)
    }

    // Reads the next candidate, whose id is in quotes and is most likely at this place in the list or soon after it.
    fn candidate(&mut self, from: usize) -> Option<Candidate> {
        self.pass(b"\"")?;
        let end = self.left.iter().position(|b| *b == b'"')?;
        let (id, left) = self.left.split_at(end);
        self.left = left;
        self.pass(b"\"")?;
        candidate_from(self.names, from, id)
    }

    // Reads a list of the ids of candidates.
    fn set(&mut self) -> Option<CandSet> {
        let mut set = CandSet::empty();
        let mut from = 0;
        self.pass(b"[")?;
        for _ in self.names {
            let c = self.candidate(from)?;
            set = set.with(c);
            from = c.index() + 1;
            if self.pass(b"]").is_some() {
                return Some(set);
            }
            self.pass(b",")?;
        }
        None
    }

    // Reads the next draws.
    fn draws(&mut self) -> Option<Option<u32>> {
        self.pass(b"\"draws\":")?;
        let draws = if self.pass(b"null").is_some() {
            None
        } else {
            Some(self.number()?)
        };
        self.pass(b",")?;
        Some(draws)
    }

    // Whether the claim is a NEB; otherwise it is a NEN.
    fn is_neb(&mut self) -> Option<bool> {
        if self.pass(b"\"kind\":\"NEB\"").is_some() {
            return Some(true);
        }
        self.pass(b"\"kind\":\"NEN\"")?;
        Some(false)
    }

    // The set of a NEN.
    fn rest(&mut self) -> Option<CandSet> {
        self.pass(b",\"rest\":")?;
        self.set()
    }

    // Reads the next assertion and its margin.
    fn assertion(&mut self) -> Option<(Assertion, u32)> {
        let is_neb = self.is_neb()?;
        self.pass(b",\"loser\":")?;
        let l = self.candidate(self.l.index())?;
        self.pass(b",\"margin\":")?;
        let margin = self.number()?;
        let rest = if is_neb { None } else { Some(self.rest()?) };
        self.pass(b",\"winner\":")?;
        let w = self.candidate(self.w.index())?;
        self.l = l;
        self.w = w;
        let assertion = match rest {
            None => Assertion::Neb { w, l },
            Some(rest) => Assertion::Nen { w, l, rest },
        };
        Some((assertion, margin))
    }

    /// Reads the next claim and the draws that are planned for it, if the file has a plan.
    pub fn claim(&mut self, is_planned: bool) -> Option<Planned> {
        self.pass(b"{")?;
        let draws = if is_planned { self.draws()? } else { None };
        let (assertion, margin) = self.assertion()?;
        self.pass(b"}")?;
        Some(Planned {
            assertion,
            margin,
            draws,
        })
    }
}

// Assertions in the layout of `print_claims`. No clause says what is read of them, so it is a guess.
ghost use Rattle.std.specs.Prelude.{◌≡◌, ◌<◌, ◌≤◌, length, IfSome};
ghost use Rattle.irv_base.specs.declared.limits.TheConstants.{ROOM};

use assertions::Assertion;
use irv_base::{CandSet, Candidate, Name, candidate_named};

/// The part of a claims file that hasn't been read.
#[derive(Drop)]
pub struct AssertionsLeft<'a> {
    names: &'a [Name],
    left: &'a [u8],
    // The winner and the loser of the previous assertion. The next assertion most likely has the same ones, or the candidates that follow
    // them.
    w: Candidate,
    l: Candidate,
    ghost few: { length names.now ≤ ROOM },
}

// The candidate with that id, looked up from this place on, and then from the front.
fn candidate_from(names: &[Name], from: usize, id: &[u8]) -> Option<Candidate>
    requires { length names.now ≤ ROOM }
{
    if from < names.len()
        && let Some(c) = candidate_named(&names[from..], id)
    {
        return Some(Candidate(from as u8 + c.0));
    }
    candidate_named(names, id)
}

impl<'a> AssertionsLeft<'a> {
    /// The assertions in this text, between candidates with these names.
    pub fn new(names: &'a [Name], text: &'a [u8]) -> AssertionsLeft<'a>
        requires { length names.now ≤ ROOM }
    {
        AssertionsLeft {
            names,
            left: text,
            w: Candidate(0),
            l: Candidate(0),
        }
    }

    /// The text that hasn't been read.
    pub fn text(&self) -> &'a [u8] {
        self.left
    }

    /// Skips these bytes, if they come next.
    pub fn pass(&mut self, bytes: &[u8]) -> Option<()> {
        self.left = self.left.strip_prefix(bytes)?;
        Some(())
    }

    // Reads the next candidate, whose id is in quotes and is most likely at this place in the list or soon after it.
    fn candidate(&mut self, from: usize) -> Option<Candidate> {
        self.pass(b"\"")?;
        let end = self.left.iter().position(|b| *b == b'"')?;
        let (id, left) = self.left.split_at(end);
        self.left = left;
        self.pass(b"\"")?;
        candidate_from(self.names, from, id)
    }

    // Reads a list of the ids of candidates.
    fn set(&mut self) -> Option<CandSet> {
        let mut set = CandSet::empty();
        let mut from = 0;
        self.pass(b"[")?;
        for _ in self.names {
            let c = self.candidate(from)?;
            set = set.with(c);
            from = c.index() + 1;
            if self.pass(b"]").is_some() {
                return Some(set);
            }
            self.pass(b",")?;
        }
        None
    }

    // Whether the assertion is a NEB; otherwise it is a NEN.
    fn is_neb(&mut self) -> Option<bool> {
        if self.pass(b"{\"kind\":\"NEB\",\"loser\":").is_some() {
            return Some(true);
        }
        self.pass(b"{\"kind\":\"NEN\",\"loser\":")?;
        Some(false)
    }

    // The set of a NEN.
    fn rest(&mut self) -> Option<CandSet> {
        self.pass(b",\"rest\":")?;
        self.set()
    }

    /// Reads the next assertion.
    pub fn assertion(&mut self) -> Option<Assertion> {
        let is_neb = self.is_neb()?;
        let l = self.candidate(self.l.index())?;
        let rest = if is_neb { None } else { Some(self.rest()?) };
        self.pass(b",\"winner\":")?;
        let w = self.candidate(self.w.index())?;
        self.pass(b"}")?;
        self.l = l;
        self.w = w;
        match rest {
            None => Some(Assertion::Neb { w, l }),
            Some(rest) => Some(Assertion::Nen { w, l, rest }),
        }
    }
}

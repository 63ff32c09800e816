// Whether a session is one of some inputs.
ghost use Rattle.std.specs.Prelude.{◌≡◌, ◌≢◌, ◌==◌, ◌&&◌, ℕ, List, map, IfOk, IfErr};
ghost use Rattle.std.specs.Bool.{OnTrue, OnFalse};
ghost use Rattle.std.specs.Option.{MatchOption};
ghost use Rattle.irv_base.specs.Names.{is_same};
ghost use Rattle.assertion_file.specs.Content.{margins_of};
ghost use Rattle.session_state.specs.Inputs.{AreSameDigests, HasFacts, IsFault, IsInputFault, IsOf, IsOfInputs, IsOtherDigest, has_facts};

use crate::digests::Digests;
use crate::session::Session;
use assertion_file::AssertionFile;
use assertions::Claim;
use irv_base::Name;
use std::error::Error;
use std::fmt;

/// How a session differs from the inputs.
#[derive(Clone, Copy, Debug, PartialEq, Eq)]
pub enum InputFault {
    /// A digest of the session isn't the file's. The file is the ballots (1), the manifest (2) or the assertions (3).
    Differs {
        which: u8,
        expected: [u8; 32],
        found: [u8; 32],
    },
    /// The session's cards, contest or margins aren't those of the inputs.
    Facts,
}

impl fmt::Display for InputFault {
    fn fmt<W: fmt::Write>(&self, f: &mut fmt::Formatter<W>) -> fmt::Result {
        f.write_str(match self {
            InputFault::Differs { which: 1, .. } => "the session is of another ballot file",
            InputFault::Differs { which: 2, .. } => "the session is of another manifest",
            InputFault::Differs { .. } => "the session is of another assertion file",
            InputFault::Facts => "the session has other cards, another contest or other margins",
        })
    }
}

impl Error for InputFault {}

/// Returns the first digest of the session that isn't the file's, in the order ballots, manifest, assertions.
pub fn other_digest(s: &Session, d: &Digests) -> Option<InputFault>
    ensures { MatchOption result (AreSameDigests s.now.digests d.now)
        (IsOtherDigest s.now.digests d.now) }
{
    let of = s.digests();
    if of.ballots.as_slice() != d.ballots.as_slice() {
        return Some(InputFault::Differs {
            which: 1,
            expected: of.ballots,
            found: d.ballots,
        });
    }
    if of.manifest.as_slice() != d.manifest.as_slice() {
        return Some(InputFault::Differs {
            which: 2,
            expected: of.manifest,
            found: d.manifest,
        });
    }
    if of.assertions.as_slice() != d.assertions.as_slice() {
        return Some(InputFault::Differs {
            which: 3,
            expected: of.assertions,
            found: d.assertions,
        });
    }
    None
}

// Whether the margins are those of the claims.
fn are_margins(margins: &[u32], claims: &[Claim]) -> bool
    ensures same { OnTrue result (margins.now ≡ map (λ claim. claim.margin) claims.now) }
    ensures differ { OnFalse result (margins.now ≢ map (λ claim. claim.margin) claims.now) }
{
    if margins.len() != claims.len() {
        return false;
    }
    for i in 0..margins.len() {
        if margins[i] != claims[i].margin {
            return false;
        }
    }
    true
}

// Whether the session has this number of cards and this contest.
fn is_about(s: &Session, cards: u32, contest: &Name) -> bool
    ensures { result ≡ ((s.now.session.cards == cards) && is_same s.now.contest contest.now) }
{
    s.cards() == cards && s.contest().bytes() == contest.bytes()
}

/// Returns whether the session has this number of cards, this contest and these margins.
pub fn has_facts_of(s: &Session, cards: u32, contest: &Name, margins: &[u32]) -> bool
    ensures { result ≡ has_facts s.now cards contest.now margins.now }
{
    is_about(s, cards, contest) && s.margins() == margins
}

/// Returns whether the session has this number of cards, and the contest and margins of the assertion file.
pub fn has_facts(s: &Session, cards: u32, f: &AssertionFile) -> bool
    ensures { result ≡ has_facts s.now cards f.now.contest (margins_of f.now) }
{
    is_about(s, cards, f.contest()) && are_margins(s.margins(), f.claims())
}

// The first digest of the session that isn't the file's, or otherwise that the session's facts aren't those of the files.
fn compared(s: &Session, d: &Digests, agree: bool) -> Result<(), InputFault>
    ensures same { (cards : ℕ) (contest margins : List ℕ)
        → agree ≡ has_facts s.now cards contest margins
        → IfOk result (λ _. IsOf s.now d.now cards contest margins) }
    ensures fault { (cards : ℕ) (contest margins : List ℕ)
        → agree ≡ has_facts s.now cards contest margins
        → IfErr result (IsFault s.now d.now cards contest margins) }
{
    if let Some(fault) = other_digest(s, d) {
        return Err(fault);
    }
    if !agree {
        return Err(InputFault::Facts);
    }
    Ok(())
}

/// Checks whether the session is one of files with these digests, a manifest with this number of cards, a contest and the margins of its
/// claims. The error is the first digest that differs, in the order ballots, manifest, assertions, or otherwise a fact that differs.
pub fn same_facts(
    s: &Session,
    d: &Digests,
    cards: u32,
    contest: &Name,
    margins: &[u32],
) -> Result<(), InputFault>
    ensures same { IfOk result (λ _. IsOf s.now d.now cards contest.now margins.now) }
    ensures fault { IfErr result (IsFault s.now d.now cards contest.now margins.now) }
{
    compared(s, d, has_facts_of(s, cards, contest, margins))
}

/// Checks whether the session is one of files with these digests, a manifest with this number of cards, and an assertion file. The error is
/// the first digest that differs, in the order ballots, manifest, assertions, or otherwise a fact that differs.
pub fn same_inputs(
    s: &Session,
    d: &Digests,
    cards: u32,
    f: &AssertionFile,
) -> Result<(), InputFault>
    ensures same { IfOk result (λ _. IsOfInputs s.now d.now cards f.now) }
    ensures fault { IfErr result (IsInputFault s.now d.now cards f.now) }
{
    compared(s, d, has_facts(s, cards, f))
}

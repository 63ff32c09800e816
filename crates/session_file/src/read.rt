// Reading a session file.
ghost use Rattle.std.specs.Prelude.{◌≡◌, Some, IfOk, IfErr};
ghost use Rattle.serde_json.specs.View.{view};
ghost use Rattle.session_file.specs.Faults.{Refuses};
ghost use Rattle.session_file.specs.Reading.{content_of, content_with, sound_session, session_of};
ghost use Rattle.session_file.specs.Views.{stated_heading};

use crate::lists::list;
use crate::members::{Heading, heading_in};
use crate::sound::{are_limits, are_margins, are_rounds};
use crate::{SessionFault, VERSION};
use assertion_file::Terms;
use irv_base::Name;
use sampler::Seed;
use serde_json::Value;
use session_state::{DoneRound, Session, signed_off};
use std::alloc::Global;

// The session with these members, margins and rounds, if it is sound and the file correctly says whether it is signed off.
fn sound_session(
    heading: &Heading<'_>,
    margins: Vec<u32>,
    rounds: Vec<DoneRound>,
) -> Option<Session>
    ensures { let stated = stated_heading heading.now in
        result ≡ sound_session stated (content_with stated margins.items rounds.items) }
{
    if heading.version != VERSION {
        return None;
    }
    let contest = Name::read(heading.contest.as_bytes())?;
    let seed = Seed::read(heading.seed).ok()?;
    let Terms {
        cards,
        gamma,
        limit,
    } = heading.terms;
    if !are_limits(cards, limit, gamma) {
        return None;
    }
    if !are_margins(cards, margins.as_slice()) {
        return None;
    }
    if !are_rounds(cards, gamma, margins.as_slice(), rounds.as_slice()) {
        return None;
    }
    let session = Session::new(
        contest,
        cards,
        margins,
        seed,
        limit,
        gamma,
        heading.digests,
        rounds,
    );
    if signed_off(&session) != heading.signed_off {
        return None;
    }
    Some(session)
}

fn content_of(alloc: Global, value: &Value) -> Result<Session, SessionFault>
    ensures read { IfOk result (λ session. content_of (view value.now) ≡ Some session) }
    ensures refused { IfErr result (Refuses (content_of (view value.now))) }
{
    let Some(heading) = heading_in(value) else {
        return Err(SessionFault::Refused);
    };
    let margins = list(alloc, heading.margins)?;
    let rounds = list(alloc, heading.rounds)?;
    let Some(session) = sound_session(&heading, margins, rounds) else {
        return Err(SessionFault::Refused);
    };
    Ok(session)
}

/// Reads a session file of version 1.
///
/// The bytes are one JSON object, with its members in any order. Other members are skipped. If a name is repeated, the last member counts.
/// Numbers are integers without a point or an exponent. The hexadecimal digits of a digest may be in either case.
///
/// A file is refused exactly if the bytes aren't JSON; a member is missing or of another kind, or a digest doesn't have 64 hexadecimal
/// digits; the version isn't `VERSION`; the contest's id isn't an id, or the seed isn't a seed; the cards are above `MOST_CARDS`, the limit
/// isn't 1 to `GREATEST_LIMIT`, gamma isn't 1 to `GREATEST_GAMMA`, or a round's draws aren't 1 to `MOST_DRAWS`; there is no margin, or a
/// margin isn't 1 to the number of cards; the draws don't increase from round to round; a round's number of counts or of risks isn't the
/// number of margins, its counts aren't five numbers whose sum is the round's draws, or a risk isn't the printed risk of its counts; or
/// `signed_off` isn't whether each claim is confirmed at the last round.
pub fn read_session(alloc: Global, bytes: &[u8]) -> Result<Session, SessionFault>
    ensures read { IfOk result (λ session. session_of bytes.now ≡ Some session) }
    ensures refused { IfErr result (Refuses (session_of bytes.now)) }
{
    match Value::from_slice(alloc, bytes) {
        Ok(value) => content_of(alloc, &value),
        Err(e) => {
            if e.is_memory() {
                return Err(SessionFault::Memory);
            }
            Err(SessionFault::Refused)
        }
    }
}

// The session in a file.
ghost use Rattle.std.specs.Prelude.{◌≡◌, ◌≤◌, IfOk};
ghost use Rattle.irv_base.specs.declared.limits.TheConstants.{MOST_DRAWS};
ghost use Rattle.input_files.specs.Judged.{IsJudged};
ghost use Rattle.session_rounds.specs.Rounds.{session_in};
ghost use Rattle.session_rounds.specs.Rounds.{MayGoOn, session_to_go_on};

use crate::texts::had_text;
use audit_session::last_draws;
use cli_base::{Refusal, RefusalKind, refuse};
use command::FileName;
use input_files::refuse_for;
use session_file::{SessionFault, read_session};
use session_state::Session;
use std::alloc::Global;

/// The session in the bytes of a file, or the rule that refuses them.
pub fn session_in(alloc: Global, file: &FileName, bytes: &[u8]) -> Result<Session, Refusal>
    ensures { IsJudged (session_in file.now bytes.now) result }
{
    match read_session(alloc, bytes) {
        Ok(session) => Ok(session),
        Err(SessionFault::Refused) => Err(refuse(alloc, RefusalKind::Input, file.as_str(), "S1")),
        Err(SessionFault::Memory) => Err(Refusal::Memory),
    }
}

/// The session in the bytes of the file with this name, whose last round had fewer draws than are requested.
pub fn session_to_go_on(
    alloc: Global,
    file: &FileName,
    draws: u32,
    bytes: &[u8],
) -> Result<Session, Refusal>
    requires { draws ≤ MOST_DRAWS }
    ensures read { IsJudged (session_to_go_on file.now draws bytes.now) result }
    ensures fewer { IfOk result (MayGoOn draws) }
{
    let session = session_in(alloc, file, bytes)?;
    let had = last_draws(session.rounds());
    if draws <= had {
        return Err(refuse_for(alloc, file, had_text(alloc, had)));
    }
    Ok(session)
}

// The assertions of a session. The file is judged only if it has the digest that the session has for it.
ghost use Rattle.input_files.specs.Judged.{IsJudged};
ghost use Rattle.session_commands.specs.Audit.{same_assertions};

use assertion_file::AssertionFile;
use cli_base::Refusal;
use command::AuditTask;
use input_files::assertions_in;
use session_rounds::same_digest;
use session_state::Session;
use std::alloc::Global;

/// The assertions.
pub(crate) fn same_assertions(
    alloc: Global,
    task: &AuditTask,
    session: &Session,
    bytes: &[u8],
) -> Result<AssertionFile, Refusal>
    ensures { IsJudged (same_assertions task.now session.now bytes.now) result }
{
    let name = &task.assertions;
    same_digest(alloc, name, &session.digests().assertions, bytes)?;
    assertions_in(alloc, name, bytes)
}

// The kind of an answer that says whether everything is confirmed.
ghost use Rattle.std.specs.Prelude.{◌≡◌};
ghost use Rattle.cli_base.specs.Confirmed.{confirmed_kind};

use crate::outcome::AnswerKind;

/// Returns done if everything is confirmed, and unconfirmed otherwise.
pub fn confirmed_kind(all: bool) -> AnswerKind
    ensures { result ≡ confirmed_kind all }
{
    if all {
        AnswerKind::Done
    } else {
        AnswerKind::Unconfirmed
    }
}

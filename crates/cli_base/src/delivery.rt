// The last step of a call, which writes its outcome.
ghost use Rattle.std.specs.Prelude.{◌≡◌};
ghost use Rattle.cli_base.specs.Ends.{writing, IsSaid, IsWritten};
ghost use Rattle.cli_base.specs.Due.{due, due_refusal};

use crate::outcome::{Answer, Refusal};
use desk::{Sink, write_all};

const BAD_WORDS: &[u8] = b"raire: bad words\n";

const OUT_OF_MEMORY: &[u8] = b"raire: out of memory\n";

/// Writes an answer to `out`, or a refusal to `err`, and returns the status that the call ends with.
pub fn deliver<O: Sink, E: Sink>(outcome: &Result<Answer, Refusal>, out: &mut O, err: &mut E) -> u8
    ensures { IsWritten (due outcome.now) result
        (writing O.Sink out.old out.new) (writing E.Sink err.old err.new) }
{
    match outcome {
        Ok(answer) => say(out, &answer.text, answer.kind.status()),
        Err(refusal) => say_refusal(err, refusal),
    }
}

fn say_refusal<S: Sink>(err: &mut S, refusal: &Refusal) -> u8
    ensures { let due = due_refusal refusal.now in
        IsSaid due.err due.status result (writing S.Sink err.old err.new) }
{
    match refusal {
        Refusal::Words => say(err, BAD_WORDS, 1),
        Refusal::Line(kind, line) => say(err, line.as_bytes(), kind.status()),
        Refusal::Memory => say(err, OUT_OF_MEMORY, 9),
    }
}

// Writes a text, and returns the status that goes with it, or 8 if a write fails.
fn say<S: Sink>(sink: &mut S, text: &[u8], status: u8) -> u8
    ensures { IsSaid text.now status result (writing S.Sink sink.old sink.new) }
{
    match write_all(sink, text) {
        Ok(()) => status,
        Err(_) => 8,
    }
}

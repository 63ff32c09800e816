// Reports what is wrong with a file under the file's name.
ghost use Rattle.std.specs.Prelude.{◌≡◌, List, ℕ, IfOk, string_bytes};
ghost use Rattle.cli_base.specs.Due.{due_refusal, IsOrMemory};
ghost use Rattle.cli_base.specs.Outcome.{Refused, outcome};
ghost use Rattle.input_files.specs.Judged.{IsTold};
ghost use Rattle.input_files.specs.Refusals.{no_record_text, refused_fault};

use cli_base::{Refusal, RefusalKind, refuse, refuse_at};
use command::FileName;
use file_fault::{Fault, Rule};
use std::alloc::{AllocError, Global};

/// Returns a refusal of the file with this name, which isn't read because of this fault.
pub fn refuse_file<R: Rule>(alloc: Global, file: &FileName, fault: Fault<R>) -> Refusal
    ensures { IsTold (refused_fault R.name file.now fault) (due_refusal result) }
{
    match fault {
        Fault::Refused { rule, at } => refuse_at(alloc, file.as_str(), rule.name(), at),
        Fault::Memory => Refusal::Memory,
    }
}

/// Returns a refusal of the file with this name, for the reason that the text gives.
pub fn refuse_for(alloc: Global, file: &FileName, text: Result<String, AllocError>) -> Refusal
    ensures { (message : List ℕ) → IfOk text (λ text. string_bytes text ≡ message)
        → IsOrMemory (outcome (Refused file.now message)) (due_refusal result) }
{
    match text {
        Ok(text) => refuse(alloc, RefusalKind::Input, file.as_str(), text.as_str()),
        Err(_) => Refusal::Memory,
    }
}

/// The text that a seen file has no record of the card of draw `k`.
pub fn no_record_text(alloc: Global, card: u32, k: u32) -> Result<String, AllocError>
    ensures { IfOk result (λ text. string_bytes text ≡ no_record_text card k) }
{
    format!(in alloc; "V4 card {card} draw {k}")
}

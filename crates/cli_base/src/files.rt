// Reads files, whole or piece by piece, or refuses them.
ghost use Rattle.std.specs.Prelude.{◌≡◌, ◌≤◌, ◌++◌, OnOk, IfOk, IfErr, string_bytes, codes};
ghost use Rattle.desk.specs.Count.{one_more, Rose};
ghost use Rattle.cli_base.specs.Script.{ByDesk};
ghost use Rattle.cli_base.specs.Outcome.{line, file_refusal, broken_at};
ghost use Rattle.cli_base.specs.Accounts.{IsAccountedFor};
ghost use Rattle.cli_base.specs.declared.outcome.RefusalKind.TheVariants.{Input};
ghost use Rattle.cli_base.specs.Due.{due_refusal, IsRead, IsTaken, IsOrMemory, StopsAt, status_so_far};
ghost use Rattle.cli_base.specs.Faults.{IsFaultTold};

use crate::outcome::{Refusal, RefusalKind};
use desk::{Desk, DeskFault, Taker, read_into};
use irv_base::MOST_FILE_BYTES;
use std::alloc::{AllocError, Global};

/// Returns all bytes of a file, or why the call stops there.
pub fn read_file<D: Desk>(alloc: Global, desk: &mut D, file: &str) -> Result<Vec<u8>, Refusal>
    ensures held { D.held desk.new ≡ D.held desk.old }
    ensures faults { IsFaultTold (D.faults desk.old) (D.faults desk.new) (status_so_far result) }
    ensures read { IsRead
        (ByDesk (D.held desk.old) (Rose (D.faults desk.old) (D.faults desk.new))) file.now result }
    ensures begun { (D.served desk.new).begins ≡ one_more (D.served desk.old).begins }
    ensures served { IsAccountedFor 1
        (D.served desk.old) (D.served desk.new) (status_so_far result) }
{
    let mut bytes = Vec::new(alloc);
    read_file_into(alloc, desk, file, &mut bytes)?;
    Ok(bytes)
}

/// Reads a file piece by piece into a taker of its bytes, or says why the call stops there. In that case some pieces may already have been
/// taken.
pub fn read_file_into<D: Desk, T: Taker>(
    alloc: Global,
    desk: &mut D,
    file: &str,
    into: &mut T,
) -> Result<(), Refusal>
    requires { T.ready into.old }
    ensures held { D.held desk.new ≡ D.held desk.old }
    ensures faults { IsFaultTold (D.faults desk.old) (D.faults desk.new) (status_so_far result) }
    ensures read { OnOk result (IsTaken T.sought T.has_taken into.old into.new
        (ByDesk (D.held desk.old) (Rose (D.faults desk.old) (D.faults desk.new))) file.now) }
    ensures stopped { IfErr result (StopsAt
        (ByDesk (D.held desk.old) (Rose (D.faults desk.old) (D.faults desk.new))) file.now) }
    ensures begun { (D.served desk.new).begins ≡ one_more (D.served desk.old).begins }
    ensures served { IsAccountedFor 1
        (D.served desk.old) (D.served desk.new) (status_so_far result) }
{
    match read_into(desk, file, MOST_FILE_BYTES as u32, into) {
        Ok(()) => Ok(()),
        Err(DeskFault::Missing) => Err(refuse(alloc, RefusalKind::Missing, file, "no such file")),
        Err(DeskFault::TooLong) => Err(refuse(alloc, RefusalKind::TooLong, file, "too long")),
        Err(DeskFault::ReadFault) => Err(refuse(alloc, RefusalKind::ReadFault, file, "read fault")),
        Err(DeskFault::Memory) => Err(Refusal::Memory),
    }
}

/// Returns a refusal that names a file.
pub fn refuse(alloc: Global, kind: RefusalKind, file: &str, text: &str) -> Refusal
    ensures { IsOrMemory (file_refusal kind file.now text.now) (due_refusal result) }
{
    match line_of_file(alloc, file, text) {
        Ok(line) => Refusal::Line(kind, line),
        Err(_) => Refusal::Memory,
    }
}

/// Returns a refusal by a rule, at the place in a file that breaks the rule.
pub fn refuse_at(alloc: Global, file: &str, rule: &str, at: u64) -> Refusal
    ensures { IsOrMemory (file_refusal Input file.now (broken_at rule.now at))
        (due_refusal result) }
{
    match broken_at(alloc, rule, at) {
        Ok(text) => refuse(alloc, RefusalKind::Input, file, text.as_str()),
        Err(_) => Refusal::Memory,
    }
}

fn broken_at(alloc: Global, rule: &str, at: u64) -> Result<String, AllocError>
    ensures { IfOk result (λ text. string_bytes text ≡ broken_at rule.now at) }
{
    format!(in alloc; "{rule} at {at}")
}

fn line_of_file(alloc: Global, file: &str, text: &str) -> Result<String, AllocError>
    ensures { IfOk result (λ message. string_bytes message ≡
        line (codes "raire: " ++ (file.now ++ codes ": " ++ text.now))) }
{
    format!(in alloc; "raire: {file}: {text}\n")
}

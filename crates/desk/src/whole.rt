// Whole files and whole texts.
ghost use Rattle.std.specs.Prelude.{◌≡◌, ◌≤◌, ◌<◌, ◌⊎◌, ◌↔◌, true, false, max, Some, OnOk, OnErr, IfErr, IfSome, IsErrOf};
ghost use Rattle.desk.specs.Count.{one_more, Rose, HasCause};
ghost use Rattle.desk.specs.Desk.{held_bytes};
ghost use Rattle.desk.specs.Sink.{Took, TookPrefix};
ghost use Rattle.desk.specs.Passing.{too_long_after};
ghost use Rattle.desk.specs.Reading.{AreHeld, IsWhyUnread, TookAll, misses_after_reading};
ghost use Rattle.desk.specs.declared.whole.DeskFault.TheVariants.{ReadFault, Memory};

use crate::{Desk, Failed, Sink, Taker};
use std::error::Error;
use std::fmt;

/// Why a file wasn't read.
#[derive(Clone, Copy, Debug, PartialEq, Eq)]
pub enum DeskFault {
    /// There is no such file.
    Missing,
    /// The desk failed.
    ReadFault,
    /// The file has more bytes than the limit.
    TooLong,
    /// Memory could not be allocated.
    Memory,
}

impl fmt::Display for DeskFault {
    fn fmt<W: fmt::Write>(&self, f: &mut fmt::Formatter<W>) -> fmt::Result {
        match self {
            DeskFault::Missing => write!(f, "no such file"),
            DeskFault::ReadFault => write!(f, "a read failed"),
            DeskFault::TooLong => write!(f, "the file is too long"),
            DeskFault::Memory => write!(f, "out of memory"),
        }
    }
}

impl Error for DeskFault {}

impl From<Failed> for DeskFault {
    ghost from_gives = { λ _ e. e ≡ ReadFault };

    fn from(_: Failed) -> Self {
        DeskFault::ReadFault
    }
}

impl From<irv_base::Memory> for DeskFault {
    ghost from_gives = { λ _ e. e ≡ Memory };

    fn from(_: irv_base::Memory) -> Self {
        DeskFault::Memory
    }
}

// The number of bytes requested at once.
const PIECE: usize = 65_536;

/// Reads the whole file with this name, if it has at most `limit` bytes, and passes its bytes to a taker piece by piece. If the
/// read fails, some pieces may have been taken.
pub fn read_into<D: Desk, T: Taker>(
    desk: &mut D,
    name: &str,
    limit: u32,
    into: &mut T,
) -> Result<(), DeskFault>
    requires { T.ready into.old }
    // Everything that came was taken. If the desk reports its files, that is what it holds, and an error says why it isn't given.
    ensures taken { OnOk result (TookAll T.sought T.has_taken into.old into.new
        (AreHeld (D.held desk.old) name.now) limit (D.served desk.new).bytes) }
    ensures unread { IfSome (D.held desk.old) (λ files.
        IfErr result (IsWhyUnread (held_bytes name.now files) limit)) }

    // In any case, one file was begun. It is missing exactly if `begin` answered false, and too long exactly if more than `limit`
    // bytes came.
    ensures begins { (D.served desk.new).begins ≡ one_more (D.served desk.old).begins }
    ensures missing { (D.served desk.new).misses ≡
        misses_after_reading result (D.served desk.old).misses }
    ensures too_long { IsErrOf result DeskFault.TooLong ↔ (limit < (D.served desk.new).bytes) }
    ensures longest { (D.served desk.new).longest ≡
        max (D.served desk.old).longest (D.served desk.new).bytes }
    ensures over { (D.served desk.new).too_long ≡
        too_long_after (D.served desk.new).bytes (D.served desk.old).too_long }

    // A fault is returned only if the count of faults rose, and if the count rose, nothing else is returned.
    ensures later { D.faults desk.old ≤ D.faults desk.new }
    ensures cause { IsErrOf result DeskFault.ReadFault →
        Rose (D.faults desk.old) (D.faults desk.new) }
    ensures told { D.faults desk.old < D.faults desk.new →
        IsErrOf result DeskFault.ReadFault }

    ensures held { D.held desk.new ≡ D.held desk.old }
    ensures ended { (IsErrOf result DeskFault.Missing ⊎ IsErrOf result DeskFault.ReadFault) →
        D.begun desk.new ≡ false }
{
    if !desk.begin(name)? {
        return Err(DeskFault::Missing);
    }
    read_begun(desk, limit, into)
}

// Reads the rest of the begun file, none of whose bytes came yet.
fn read_begun<D: Desk, T: Taker>(desk: &mut D, limit: u32, into: &mut T) -> Result<(), DeskFault>
    requires begun { D.begun desk.old ≡ true }
    requires start { (D.served desk.old).bytes ≡ 0 }
    requires ready { T.ready into.old }
    ensures taken { OnOk result (TookAll T.sought T.has_taken into.old into.new
        (λ bytes. IfSome (D.left desk.old) (λ left. left ≡ bytes))
        limit (D.served desk.new).bytes) }
    ensures unread { IfSome (D.left desk.old) (λ left.
        IfErr result (IsWhyUnread (Some left) limit)) }
    ensures present { IsErrOf result DeskFault.Missing → ⊥ }
    ensures begins { (D.served desk.new).begins ≡ (D.served desk.old).begins }
    ensures misses { (D.served desk.new).misses ≡ (D.served desk.old).misses }
    ensures too_long { IsErrOf result DeskFault.TooLong ↔ (limit < (D.served desk.new).bytes) }
    ensures longest { (D.served desk.new).longest ≡
        max (D.served desk.old).longest (D.served desk.new).bytes }
    ensures over { (D.served desk.new).too_long ≡
        too_long_after (D.served desk.new).bytes (D.served desk.old).too_long }
    ensures later { D.faults desk.old ≤ D.faults desk.new }
    ensures cause { IsErrOf result DeskFault.ReadFault →
        Rose (D.faults desk.old) (D.faults desk.new) }
    ensures told { D.faults desk.old < D.faults desk.new →
        IsErrOf result DeskFault.ReadFault }
    ensures held { D.held desk.new ≡ D.held desk.old }
    ensures ended { IsErrOf result DeskFault.ReadFault → D.begun desk.new ≡ false }
{
    let mut came: u64 = 0;
    let mut piece = [0u8; PIECE];
    loop {
        let count = desk.read(&mut piece)?;
        if count == 0 {
            return Ok(());
        }
        came += count as u64;
        if came > u64::from(limit) {
            return Err(DeskFault::TooLong);
        }
        into.take(&piece[..count])?;
    }
}

/// Writes all the bytes. If the answer is `Failed`, the sink took a prefix of them.
pub fn write_all<S: Sink>(sink: &mut S, bytes: &[u8]) -> Result<(), Failed>
    ensures whole { OnOk result (Took S.Sink sink.old sink.new bytes.now) }
    ensures prefix { OnErr result (TookPrefix S.Sink sink.old sink.new bytes.now) }
    ensures cause { HasCause (S.faults sink.old) (S.faults sink.new) result }
{
    let mut rest = bytes;
    while !rest.is_empty() {
        let count = sink.write(rest)?;
        rest = &rest[count..];
    }
    Ok(())
}

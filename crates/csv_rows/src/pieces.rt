// A text that comes in pieces.
ghost use Rattle.std.specs.Prelude.{◌≡◌, ◌<◌, ◌++◌, [], List, ℕ, IfOk, IfSome, OnOk, is_some, length};
ghost use Rattle.csv_rows.specs.Fields.{numbered_records};
ghost use Rattle.csv_rows.specs.Pieces.{IsBehind, StandApart, can_be_read};
ghost use Rattle.csv_rows.specs.Rows.{Fields};

use crate::lines::{LINE_FEED, is_plain, whole_lines};
use crate::mark::{BYTE_ORDER_MARK, without_mark};
use crate::plain_lines::PlainLines;
use irv_base::Memory;
use std::alloc::Global;
use std::marker::Model;

/// At most this many bytes of whole lines are looked at. If more are available, they couldn't be passed on, and each piece would cause
/// those that aren't plain to be looked at again.
pub const MOST_AT_HAND: usize = 8 << 20;

/// What is available of a text that comes in pieces: its whole lines, and the last line, which may still grow. Lines whose records have
/// been read are passed, so a plain text need not be held whole.
///
/// In a contract, it is these two.
#[derive(Drop)]
pub struct Pieces {
    lines: Vec<u8>,
    last: Vec<u8>,
    // the number of bytes at the front of the lines that were seen to be plain when they came
    plain: usize,
}

impl Model for Pieces {
    ghost use Rattle.std.specs.Prelude.{◌≤◌, IsTrue, length, take};
    ghost use Rattle.csv_rows.specs.Lines.{is_plain};
    ghost use Rattle.csv_rows.specs.Pieces.{AtHand};

    ghost Value = { AtHand };

    ghost view = { λ p. record { lines = p.lines.items; last = p.last.items } };

    ghost invariant = { λ p.
        (p.plain ≤ length p.lines.items) × IsTrue (is_plain (take p.plain p.lines.items)) };
}

impl Pieces {
    /// A text of which nothing has come yet.
    pub fn new(alloc: Global) -> Pieces
        ensures { IsBehind [] [] result }
    {
        Pieces {
            lines: Vec::new(alloc),
            last: Vec::new(alloc),
            plain: 0,
        }
    }

    /// Takes the bytes that come next.
    pub fn take(&mut self, piece: &[u8]) -> Result<(), Memory>
        ensures { OnOk result ((text : List ℕ) → (rows : List Fields)
            → IsBehind text rows self.old → IsBehind (text ++ piece.now) rows self.new) }
    {
        let (lines, last) = whole_lines(piece);
        if lines.is_empty() {
            self.last.extend_from_slice(piece)?;
            return Ok(());
        }
        self.lines.extend_from_slice(&self.last)?;
        self.lines.extend_from_slice(lines)?;
        self.last.clear();
        self.last.extend_from_slice(last)?;
        self.look();
        Ok(())
    }

    // Checks whether the lines that came are plain, while they are near.
    fn look(&mut self)
        ensures { self.new ≡ self.old }
    {
        if self.lines.len() <= MOST_AT_HAND && is_plain(&self.lines[self.plain..]) {
            self.plain = self.lines.len();
        }
    }

    /// The whole lines, if what comes after them can't change their records: they have no double quote and no byte EF, except in a byte
    /// order mark at their front, which must be whole. Lines with more than `MOST_AT_HAND` bytes in all aren't looked at.
    pub fn lines(&self) -> Option<PlainLines<'_>>
        ensures told { is_some result ≡ can_be_read self.now.lines }
        ensures some { IfSome result (λ _. 0 < length self.now.lines) }
        ensures records { IfSome result (λ lines. lines ≡ numbered_records self.now.lines) }
        ensures apart { IfSome result (λ _. StandApart self.now.lines) }
    {
        if self.lines.len() < BYTE_ORDER_MARK.len() || self.lines.len() > MOST_AT_HAND {
            return None;
        }
        let lines = without_mark(&self.lines);
        if lines.is_empty() {
            return None;
        }
        if self.plain == self.lines.len() {
            return Some(PlainLines::of_plain(lines));
        }
        PlainLines::of(lines)
    }

    /// The number of bytes in the whole lines.
    pub fn held(&self) -> usize
        ensures { result ≡ length self.now.lines }
    {
        self.lines.len()
    }

    /// Marks the records of the whole lines as read. What is available is then what comes after the lines.
    pub fn pass(&mut self)
        requires some { 0 < length self.old.lines }
        requires apart { StandApart self.old.lines }
        ensures short { length self.new.lines ≡ 1 }
        ensures passed { (text : List ℕ) → (rows : List Fields) → IsBehind text rows self.old
            → IsBehind text (rows ++ numbered_records self.old.lines) self.new }
    {
        self.lines.truncate(1);
        self.lines[0] = LINE_FEED;
        self.plain = 0;
    }

    /// All that is available, when nothing more comes.
    pub fn into_text(self) -> Result<Vec<u8>, Memory>
        ensures { IfOk result (λ rest. (text : List ℕ) → (rows : List Fields)
            → IsBehind text rows self
            → numbered_records text ≡ rows ++ numbered_records rest.items) }
    {
        let Pieces {
            mut lines,
            last,
            ..
        } = self;
        lines.extend_from_slice(&last)?;
        Ok(lines)
    }
}

// The marks of a text, which show which of its first bytes end a field or may be a blank; and what comes after its first line.
//
// One look at 64 bytes finds the commas and the bytes that aren't above a space. The first mark usually ends the field, which then has no
// blank to remove, and the next marks are those of the next fields.
ghost use Rattle.std.specs.Prelude.{ℕ, ◌≡◌, ◌+◌, ◌≤◌, List, length, map, take, drop};
ghost use Rattle.std.specs.Simd.Lanes.{mask_l};
ghost use Rattle.csv_rows.specs.Lanes.{AreMarks, before_first, is_low, is_stop};
ghost use Rattle.csv_rows.specs.Lines.{behind_line};

use crate::lanes::first_set;
use crate::lines::{COMMA, behind_line, is_line_end};
use std::simd::prelude::*;

// The number of bytes that are examined at once.
const MARK_LANES: usize = 64;

// The byte above a space
const ABOVE_SPACE: u8 = b' ' + 1;

// The marks of the first `MARK_LANES` bytes, and the number of these that come before the first that isn't above a space: a blank, a line
// end or another such byte.
#[inline(always)]
fn marks_and_low(text: &[u8]) -> (u64, usize)
    requires { MARK_LANES ≤ length text.now }
    ensures marks { result.0 ≡ mask_l (map is_stop (take MARK_LANES text.now)) }
    ensures low { result.1 ≡ before_first is_low (take MARK_LANES text.now) }
{
    let bytes = u8x64::from_slice(text);
    let low = bytes.simd_lt(u8x64::splat(ABOVE_SPACE));
    let stops = bytes.simd_eq(u8x64::splat(COMMA)) | low;
    (stops.to_bitmask(), first_set(low.to_bitmask(), MARK_LANES))
}

/// The marks of a text. There are none near its end.
#[inline(always)]
pub fn marks_of(text: &[u8]) -> u64
    ensures { AreMarks result text.now }
{
    if text.len() < MARK_LANES {
        return 0;
    }
    marks_and_low(text).0
}

/// The marks of a text, and what comes after the end of its first line. Most lines end within the first look, and have no blank.
#[inline(always)]
pub fn cut_line(text: &[u8]) -> (u64, &[u8])
    ensures marks { AreMarks result.0 text.now }
    ensures behind { result.1.now ≡ behind_line text.now }
{
    if text.len() < MARK_LANES {
        return (0, behind_line(text));
    }
    let (marks, low) = marks_and_low(text);
    if low < MARK_LANES && is_line_end(text[low]) {
        return (marks, &text[low + 1..]);
    }
    (marks, behind_line(text))
}

/// The marks of the rest of a text after its byte at `end`, derived from the marks of the text.
#[inline(always)]
pub fn marks_behind(marks: u64, end: usize) -> u64
    ensures { (text : List ℕ) → AreMarks marks text → AreMarks result (drop (end + 1) text) }
{
    if end >= MARK_LANES {
        return 0;
    }
    marks >> end >> 1
}

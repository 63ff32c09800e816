// The lines of a plain text. None of it is copied.
ghost use Rattle.std.specs.Prelude.{◌≡◌, ◌+◌, ◌<◌, ◌≤◌, ◌∷◌, ◌++◌, IfSome, IsTrue, drop, length};
ghost use Rattle.memchr.specs.Find.{IsFirstByte, Nowhere, Passes, is_byte2, is_byte3};
ghost use Rattle.csv_rows.specs.Fields.{is_blank_record, trimmed_fields};
ghost use Rattle.csv_rows.specs.Lines.{are_whole_lines, behind_line, fields_behind, fields_in, is_line_end, is_plain, is_unended};

use crate::lanes::{FIELD_LANES, LINE_LANES, bytes_in_field, bytes_in_line};
use crate::trim::is_blank;
use memchr::{memchr2_iter, memrchr2};

pub const COMMA: u8 = b',';

pub const CARRIAGE_RETURN: u8 = b'\r';

pub const LINE_FEED: u8 = b'\n';

const DOUBLE_QUOTE: u8 = b'"';

// The first byte of a byte order mark
const MARK_BEGIN: u8 = 0xEF;

/// Whether a text is plain: it has neither a double quote nor a byte EF, with which a byte order mark begins.
pub fn is_plain(text: &[u8]) -> bool
    ensures { result ≡ is_plain text.now }
{
    memchr2_iter(DOUBLE_QUOTE, MARK_BEGIN, text)
        .next()
        .is_none()
}

/// Whether a byte ends a field: a comma, or a line end.
pub fn ends_field(b: u8) -> bool
    ensures { result ≡ is_byte3 0x2C 0x0D 0x0A b }
{
    b == COMMA || b == CARRIAGE_RETURN || b == LINE_FEED
}

// The place of the first comma or line end, if none comes before `from`.
fn field_end_from(text: &[u8], from: usize) -> Option<usize>
    requires within { from ≤ length text.now }
    requires before { Nowhere (Passes (is_byte3 0x2C 0x0D 0x0A) text.now) 0 from }
    ensures { IsFirstByte (is_byte3 0x2C 0x0D 0x0A) text.now result }
{
    for i in from..text.len() {
        if ends_field(text[i]) {
            return Some(i);
        }
    }
    None
}

// The place of the first comma or line end. Most fields end within one look.
#[inline(always)]
fn first_field_end(text: &[u8]) -> Option<usize>
    ensures { IsFirstByte (is_byte3 0x2C 0x0D 0x0A) text.now result }
{
    if text.len() < FIELD_LANES {
        return field_end_from(text, 0);
    }
    let end = bytes_in_field(text, 0);
    if end < FIELD_LANES {
        return Some(end);
    }
    field_end_from(text, FIELD_LANES)
}

// The place of the first line end, if none comes before `from`.
fn line_end_from(text: &[u8], from: usize) -> Option<usize>
    requires within { from ≤ length text.now }
    requires before { Nowhere (Passes (is_byte2 0x0D 0x0A) text.now) 0 from }
    ensures { IsFirstByte (is_byte2 0x0D 0x0A) text.now result }
{
    for i in from..text.len() {
        if is_line_end(text[i]) {
            return Some(i);
        }
    }
    None
}

// The place of the first line end.
fn first_line_end(text: &[u8]) -> Option<usize>
    ensures { IsFirstByte (is_byte2 0x0D 0x0A) text.now result }
{
    let mut from = 0;
    while text.len() - from >= LINE_LANES {
        let more = bytes_in_line(text, from);
        if more < LINE_LANES {
            return Some(from + more);
        }
        from += LINE_LANES;
    }
    line_end_from(text, from)
}

/// The whole lines at the front of a text, with the end of the last of them, and the line after them, which has no end.
pub fn whole_lines(text: &[u8]) -> (&[u8], &[u8])
    ensures parts { text.now ≡ result.0.now ++ result.1.now }
    ensures whole { IsTrue (are_whole_lines result.0.now) }
    ensures last { IsTrue (is_unended result.1.now) }
{
    match memrchr2(CARRIAGE_RETURN, LINE_FEED, text) {
        Some(end) => text.split_at(end + 1),
        None => (&text[..0], text),
    }
}

/// The lines of a text up to the end of the line that byte `at` is in, and what comes after that end.
pub fn lines_up_to(text: &[u8], at: usize) -> (&[u8], &[u8])
    ensures parts { text.now ≡ result.0.now ++ result.1.now }
    ensures whole { 0 < length result.1.now → IsTrue (are_whole_lines result.0.now) }
{
    let from = at.min(text.len());
    match first_line_end(&text[from..]) {
        Some(end) => text.split_at(from + end + 1),
        None => (text, &text[text.len()..]),
    }
}

/// What comes after the end of the first line.
pub fn behind_line(text: &[u8]) -> &[u8]
    ensures { result.now ≡ behind_line text.now }
{
    match first_line_end(text) {
        Some(end) => &text[end + 1..],
        None => &text[text.len()..],
    }
}

/// The first field of a line, and the text after the comma that ends it, if one does.
pub fn cut_field(text: &[u8]) -> (&[u8], Option<&[u8]>)
    ensures fields { fields_in text.now ≡ result.0.now ∷ fields_behind result.1 }
    ensures behind { IfSome result.1 (λ left. left.now ≡ drop (length result.0.now + 1) text.now) }
{
    let Some(end) = first_field_end(text) else {
        return (text, None);
    };
    if text[end] != COMMA {
        return (&text[..end], None);
    }
    (&text[..end], Some(&text[end + 1..]))
}

/// Whether a byte ends a line: a carriage return, or a line feed.
pub fn is_line_end(b: u8) -> bool
    ensures { result ≡ is_line_end b }
{
    b == CARRIAGE_RETURN || b == LINE_FEED
}

/// Whether the first line of a text is a blank record: its only field is empty without its spaces and tabs.
pub fn is_blank_line(text: &[u8]) -> bool
    ensures { result ≡ is_blank_record (trimmed_fields (fields_in text.now)) }
{
    for i in 0..text.len() {
        if is_line_end(text[i]) {
            return true;
        }
        if !is_blank(text[i]) {
            return false;
        }
    }
    true
}

/// The number of fields in the first line of a text.
pub fn field_count(text: &[u8]) -> usize
    ensures { result ≡ length (fields_in text.now) }
{
    let mut n = 1;
    for i in 0..text.len() {
        if is_line_end(text[i]) {
            return n;
        }
        if text[i] == COMMA {
            n += 1;
        }
    }
    n
}

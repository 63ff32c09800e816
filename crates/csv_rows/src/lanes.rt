// Adjacent bytes: the number that come before the first that ends a field, or a line.
ghost use Rattle.std.specs.Prelude.{◌≡◌, ◌+◌, ◌≤◌, length, take, drop};
ghost use Rattle.memchr.specs.Find.{is_byte2, is_byte3};
ghost use Rattle.csv_rows.specs.Lanes.{before_first, first_set};

use crate::lines::{CARRIAGE_RETURN, COMMA, LINE_FEED};
use std::simd::prelude::*;

/// The number of bytes that are examined at once to find the end of a field.
pub const FIELD_LANES: usize = 16;

/// The number of bytes that are examined at once to find the end of a line. Most lines end within one look.
pub const LINE_LANES: usize = 64;

/// The place of the lowest bit that is set, or `lanes` if no bit is set.
#[inline(always)]
pub fn first_set(marks: u64, lanes: usize) -> usize
    ensures { result ≡ first_set marks lanes }
{
    if marks == 0 {
        return lanes;
    }
    marks.trailing_zeros() as usize
}

/// The number of the `FIELD_LANES` bytes from a place on that come before the first that ends a field.
#[inline(always)]
pub fn bytes_in_field(text: &[u8], at: usize) -> usize
    requires { at + FIELD_LANES ≤ length text.now }
    ensures { result ≡ before_first (is_byte3 0x2C 0x0D 0x0A) (take FIELD_LANES (drop at text.now)) }
{
    let bytes = u8x16::from_slice(&text[at..]);
    let ends = bytes.simd_eq(u8x16::splat(COMMA))
        | bytes.simd_eq(u8x16::splat(CARRIAGE_RETURN))
        | bytes.simd_eq(u8x16::splat(LINE_FEED));
    first_set(ends.to_bitmask(), FIELD_LANES)
}

/// The number of the `LINE_LANES` bytes from a place on that come before the first that ends a line.
#[inline(always)]
pub fn bytes_in_line(text: &[u8], at: usize) -> usize
    requires { at + LINE_LANES ≤ length text.now }
    ensures { result ≡ before_first (is_byte2 0x0D 0x0A) (take LINE_LANES (drop at text.now)) }
{
    let bytes = u8x64::from_slice(&text[at..]);
    let ends = bytes.simd_eq(u8x64::splat(CARRIAGE_RETURN))
        | bytes.simd_eq(u8x64::splat(LINE_FEED));
    first_set(ends.to_bitmask(), LINE_LANES)
}

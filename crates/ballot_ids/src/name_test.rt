// Whether bytes are a name. The bytes of most ids are examined side by side.
ghost use Rattle.std.specs.Prelude.{◌≡◌, ◌<◌, ◌+◌, ◌≤◌, length, take, drop};
ghost use Rattle.std.specs.List.{list_all};
ghost use Rattle.irv_base.specs.Names.{has_name_length, is_name, is_name_byte, touches_space};

use irv_base::MOST_NAME_BYTES;
use std::simd::prelude::*;

fn is_name_byte(b: u8) -> bool
    ensures { result ≡ is_name_byte b }
{
    (b' '..=b'~').contains(&b) && b != b'"' && b != b','
}

// Whether a name may have the eight bytes from a place on. Bytes below a space are far above it once the space is subtracted.
fn are_name_bytes_8(bytes: &[u8], at: usize) -> bool
    requires { at + 8 ≤ length bytes.now }
    ensures { result ≡ list_all is_name_byte (take 8 (drop at bytes.now)) }
{
    let eight = u8x8::from_slice(&bytes[at..]);
    let behind_space = eight - u8x8::splat(b' ');
    let others = behind_space.simd_ge(u8x8::splat(0x5F))
        | eight.simd_eq(u8x8::splat(b'"'))
        | eight.simd_eq(u8x8::splat(b','));
    others.to_bitmask() == 0
}

// Whether a name may have these 8 to 16 bytes: whether it may have the first eight and the last eight.
fn are_name_bytes_by_8(bytes: &[u8]) -> bool
    requires fewest { 8 ≤ length bytes.now }
    requires most { length bytes.now ≤ 16 }
    ensures { result ≡ list_all is_name_byte bytes.now }
{
    are_name_bytes_8(bytes, 0) && are_name_bytes_8(bytes, bytes.len() - 8)
}

// Whether a name may have these bytes.
fn are_name_bytes(bytes: &[u8]) -> bool
    ensures { result ≡ list_all is_name_byte bytes.now }
{
    if (8..=16).contains(&bytes.len()) {
        return are_name_bytes_by_8(bytes);
    }
    bytes.iter().all(|b| is_name_byte(*b))
}

fn has_name_length(bytes: &[u8]) -> bool
    ensures { result ≡ has_name_length bytes.now }
{
    !bytes.is_empty() && bytes.len() <= MOST_NAME_BYTES
}

fn touches_space(bytes: &[u8]) -> bool
    requires { 0 < length bytes.now }
    ensures { result ≡ touches_space bytes.now }
{
    bytes[0] == b' ' || bytes[bytes.len() - 1] == b' '
}

/// Whether these bytes are a name. No name is made.
pub fn is_name(bytes: &[u8]) -> bool
    ensures { result ≡ is_name bytes.now }
{
    has_name_length(bytes) && !touches_space(bytes) && are_name_bytes(bytes)
}

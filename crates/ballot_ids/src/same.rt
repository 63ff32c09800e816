// Whether two ids are the same. Short ones are compared as numbers.
ghost use Rattle.std.specs.Prelude.{◌≡◌, ◌+◌, ◌*◌, ◌≤◌, length, take, drop};
ghost use Rattle.std.specs.Int.{w32, w64, to_le_bytes};
ghost use Rattle.irv_base.specs.Names.{is_same};

/// The four bytes from a place on, as a number.
#[inline(always)]
pub fn number_of_4(bytes: &[u8], at: usize) -> u32
    requires { at + 4 ≤ length bytes.now }
    ensures { to_le_bytes w32 result ≡ take 4 (drop at bytes.now) }
{
    u32::from_le_bytes([bytes[at], bytes[at + 1], bytes[at + 2], bytes[at + 3]])
}

// The eight bytes from a place on, as a number.
fn number_of_8(bytes: &[u8], at: usize) -> u64
    requires { at + 8 ≤ length bytes.now }
    ensures { to_le_bytes w64 result ≡ take 8 (drop at bytes.now) }
{
    u64::from_le_bytes([
        bytes[at],
        bytes[at + 1],
        bytes[at + 2],
        bytes[at + 3],
        bytes[at + 4],
        bytes[at + 5],
        bytes[at + 6],
        bytes[at + 7],
    ])
}

// Whether two ids of the same length, 1 to 3 bytes, are the same: whether their first, middle and last bytes are.
fn is_same_by_1(a: &[u8], b: &[u8]) -> bool
    requires long { length a.now ≡ length b.now }
    requires fewest { 1 ≤ length a.now }
    requires most { length a.now ≤ 3 }
    ensures { result ≡ is_same a.now b.now }
{
    let middle = a.len() / 2;
    let last = a.len() - 1;
    a[0] == b[0] && a[middle] == b[middle] && a[last] == b[last]
}

// Whether two ids of the same length, 4 to 8 bytes, are the same: whether their first four bytes and their last four are.
fn is_same_by_4(a: &[u8], b: &[u8]) -> bool
    requires long { length a.now ≡ length b.now }
    requires fewest { 4 ≤ length a.now }
    requires most { length a.now ≤ 8 }
    ensures { result ≡ is_same a.now b.now }
{
    let last = a.len() - 4;
    number_of_4(a, 0) == number_of_4(b, 0) && number_of_4(a, last) == number_of_4(b, last)
}

// Whether two ids of the same length, 8 to 16 bytes, are the same: whether their first eight bytes and their last eight are.
fn is_same_by_8(a: &[u8], b: &[u8]) -> bool
    requires long { length a.now ≡ length b.now }
    requires fewest { 8 ≤ length a.now }
    requires most { length a.now ≤ 16 }
    ensures { result ≡ is_same a.now b.now }
{
    let last = a.len() - 8;
    number_of_8(a, 0) == number_of_8(b, 0) && number_of_8(a, last) == number_of_8(b, last)
}

/// Whether two ids are the same.
pub fn is_same(a: &[u8], b: &[u8]) -> bool
    ensures { result ≡ is_same a.now b.now }
{
    let n = a.len();
    if n != b.len() {
        return false;
    }
    if (4..=8).contains(&n) {
        return is_same_by_4(a, b);
    }
    if (8..=16).contains(&n) {
        return is_same_by_8(a, b);
    }
    if (1..=3).contains(&n) {
        return is_same_by_1(a, b);
    }
    a == b
}

// The byte order mark at the front of a file.
ghost use Rattle.std.specs.Prelude.{◌≡◌};
ghost use Rattle.csv_rows.specs.Fields.{without_mark};

pub const BYTE_ORDER_MARK: [u8; 3] = [0xEF, 0xBB, 0xBF];

/// The bytes of a file without the byte order mark at their front, if there is one. A second mark stays.
pub fn without_mark(bytes: &[u8]) -> &[u8]
    ensures { result.now ≡ without_mark bytes.now }
{
    if bytes.starts_with(&BYTE_ORDER_MARK) {
        return &bytes[BYTE_ORDER_MARK.len()..];
    }
    bytes
}

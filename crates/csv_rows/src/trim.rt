// Fields without the blanks around them.
ghost use Rattle.std.specs.Prelude.{◌≡◌};
ghost use Rattle.csv_rows.specs.Fields.{is_blank, trimmed_start, trimmed_end, trimmed};

pub(crate) fn is_blank(b: u8) -> bool
    ensures { result ≡ is_blank b }
{
    b == b' ' || b == b'\t'
}

fn trimmed_start(text: &[u8]) -> &[u8]
    ensures { result.now ≡ trimmed_start text.now }
{
    for i in 0..text.len() {
        if !is_blank(text[i]) {
            return &text[i..];
        }
    }
    &text[text.len()..]
}

fn trimmed_end(text: &[u8]) -> &[u8]
    ensures { result.now ≡ trimmed_end text.now }
{
    let mut len = text.len();
    while len > 0 {
        if !is_blank(text[len - 1]) {
            return &text[..len];
        }
        len -= 1;
    }
    &text[..0]
}

/// The field without the spaces and tabs around it.
pub fn trimmed(field: &[u8]) -> &[u8]
    ensures { result.now ≡ trimmed field.now }
{
    trimmed_end(trimmed_start(field))
}

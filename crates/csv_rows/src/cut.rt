// The fields of a line, cut off in order, without the blanks around them.
ghost use Rattle.std.specs.Prelude.{◌≡◌, ◌+◌, ◌∷◌, IfSome, drop, take};
ghost use Rattle.csv_rows.specs.Fields.{trimmed_fields};
ghost use Rattle.csv_rows.specs.Lanes.{AreMarks, IsBareEnd};
ghost use Rattle.csv_rows.specs.Lines.{fields_behind, fields_in};

use crate::lines::{COMMA, cut_field, ends_field};
use crate::stops::marks_behind;
use crate::trim::trimmed;

/// The place of the first comma or line end, if the marks show it and no blank comes before it.
#[inline(always)]
pub fn bare_end(text: &[u8], marks: u64) -> Option<usize>
    requires { AreMarks marks text.now }
    ensures { IfSome result (IsBareEnd text.now) }
{
    if marks == 0 {
        return None;
    }
    let end = marks.trailing_zeros() as usize;
    if !ends_field(text[end]) {
        return None;
    }
    Some(end)
}

/// The text after the comma that ends the first field, if one does, for a field that has no blanks and ends at this place.
#[inline(always)]
pub fn behind_bare(text: &[u8], end: usize) -> Option<&[u8]>
    requires { IsBareEnd text.now end }
    ensures fields { trimmed_fields (fields_in text.now)
        ≡ take end text.now ∷ trimmed_fields (fields_behind result) }
    ensures behind { IfSome result (λ left. left.now ≡ drop (end + 1) text.now) }
{
    if text[end] != COMMA {
        return None;
    }
    Some(&text[end + 1..])
}

/// Cuts the first field off a line, without the blanks around it, and leaves the text after the comma that ends it, if one does, with the
/// marks of that text. The field may have blanks, or lie beyond the marks. Few do, so this isn't inlined.
#[inline(never)]
pub fn cut_any<'t>(text: &'t [u8], left: &mut Option<&'t [u8]>, marks: &mut u64) -> &'t [u8]
    requires { AreMarks marks.old text.now }
    ensures fields { trimmed_fields (fields_in text.now)
        ≡ result.now ∷ trimmed_fields (fields_behind left.new) }
    ensures marks { IfSome left.new (λ left. AreMarks marks.new left.now) }
{
    let (field, behind) = cut_field(text);
    *left = behind;
    *marks = marks_behind(*marks, field.len());
    trimmed(field)
}

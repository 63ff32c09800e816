//! Worked examples, computed by the checker: numbers, fields and records on both sides of their rules.
ghost use Rattle.std.specs.Prelude.{◌≡◌, [], ◌∷◌, ◌++◌, Some, None, true, false, codes};
ghost use Rattle.csv_rows.specs.Fields.{byte_order_mark, numbered, trimmed, without_mark};
ghost use Rattle.csv_rows.specs.Lines.{behind_line, fields_in, is_plain};
ghost use Rattle.csv_rows.specs.Numbers.{number_of};

/// Up to ten digits are a number, including leading zeros. Eleven digits aren't a number, and neither is a sign.
pub fn numbers()
    ensures ten { number_of (codes "0000000012") ≡ Some 12 }
    ensures eleven { number_of (codes "00000000012") ≡ None }
    ensures most { number_of (codes "9999999999") ≡ Some 9999999999 }
    ensures none { number_of [] ≡ None }
    ensures sign { number_of (codes "+1") ≡ None }
    ensures letter { number_of (codes "1a") ≡ None }
{}

/// Spaces and tabs around a field are removed, but those within it aren't. No other byte is a blank.
pub fn fields()
    ensures spaces { trimmed (codes "  a b ") ≡ codes "a b" }
    ensures tabs { trimmed (0x09 ∷ 0x61 ∷ 0x09 ∷ 0x62 ∷ 0x09 ∷ []) ≡ 0x61 ∷ 0x09 ∷ 0x62 ∷ [] }
    ensures blank { trimmed (0x20 ∷ 0x09 ∷ 0x20 ∷ []) ≡ [] }
    ensures line_ends { trimmed (0x0D ∷ 0x0A ∷ []) ≡ 0x0D ∷ 0x0A ∷ [] }
{}

/// A record of one blank field is skipped. A record of two fields has a number, even if both are blank.
pub fn records()
    ensures blank { numbered ((codes " " ∷ []) ∷ (codes " a " ∷ []) ∷ []) ≡ (codes "a" ∷ []) ∷ [] }
    ensures two_fields { numbered ((codes " " ∷ codes " " ∷ []) ∷ []) ≡ ([] ∷ [] ∷ []) ∷ [] }
    ensures last { numbered ((codes "a" ∷ []) ∷ ([] ∷ []) ∷ []) ≡ (codes "a" ∷ []) ∷ [] }
{}

/// One byte order mark is removed, and only at the front.
pub fn marks()
    ensures one { without_mark (byte_order_mark ++ codes "1") ≡ codes "1" }
    ensures two { without_mark (byte_order_mark ++ byte_order_mark) ≡ byte_order_mark }
    ensures behind { without_mark (codes "1" ++ byte_order_mark) ≡ codes "1" ++ byte_order_mark }
    ensures cut_off { without_mark (0xEF ∷ 0xBB ∷ []) ≡ 0xEF ∷ 0xBB ∷ [] }
{}

/// The fields of a line end at its commas and at its end, which is a carriage return or a line feed. A line with nothing in it has one
/// field, an empty one. A text with a double quote or the first byte of a mark isn't plain.
pub fn lines()
    ensures fields { fields_in (codes "a,,b" ++ 0x0D ∷ codes "c,d") ≡ codes "a" ∷ [] ∷ codes "b" ∷ [] }
    ensures behind { behind_line (codes "a,,b" ++ 0x0D ∷ codes "c,d") ≡ codes "c,d" }
    ensures last_comma { fields_in (codes "a,") ≡ codes "a" ∷ [] ∷ [] }
    ensures empty { fields_in (0x0A ∷ codes "a") ≡ [] ∷ [] }
    ensures no_end { behind_line (codes "a,b") ≡ [] }
    ensures plain { is_plain (codes "a,\t~") ≡ true }
    ensures quote { is_plain (codes "a,\"b\"") ≡ false }
    ensures mark { is_plain byte_order_mark ≡ false }
{}

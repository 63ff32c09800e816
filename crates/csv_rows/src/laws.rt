//! The laws of files that come in pieces. None has code.
ghost use Rattle.std.specs.Prelude.{◌≡◌};
ghost use Rattle.csv_rows.specs.declared.pieces.TheConstants as limit;

/// The value of the limit.
pub fn limits()
    ensures most_at_hand { limit.MOST_AT_HAND ≡ 8388608 }
{}

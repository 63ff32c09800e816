// Tests of the steps of one record.
use super::ranked;
use assorters::Seen;
use csv::ByteRecord;
use csv_rows::{Fields, Rows};
use file_fault::Rule;
use irv_base::Name;
use seen_file::{VRule, is_told, seen_of_record};

#[test]
fn tells_by_word(rt: HostRuntime) {
    let mut rows = Rows::of(rt.alloc(), b"2,1\n \t,\n".as_slice());
    let mut row = ByteRecord::new(rt.alloc());
    let candidates = [
        Name::read(b"1".as_slice()).expect(&rt, "a name"),
        Name::read(b"2".as_slice()).expect(&rt, "a name"),
    ];
    let (ballot, missing) = (b"ballot".as_slice(), b"missing".as_slice());
    assert!(rt; rows.read(&mut row) == Ok(true));
    assert!(rt; is_told(ballot, Fields::of(&row)));
    assert!(rt; !is_told(missing, Fields::of(&row)));
    assert!(rt; !is_told(b"found".as_slice(), Fields::of(&row)));
    let seen = seen_of_record(candidates.as_slice(), ballot, Fields::of(&row));
    assert!(rt; ranked(seen) == Some([Some(1), Some(0), None]));
    assert!(rt; seen_of_record(&candidates[..1], ballot, Fields::of(&row)).is_none());
    assert!(rt; rows.read(&mut row) == Ok(true));
    assert!(rt; is_told(missing, Fields::of(&row)));
    let seen = seen_of_record(candidates.as_slice(), missing, Fields::of(&row));
    assert!(rt; matches!(seen, Some(Seen::Missing)));
}

#[test]
fn names_rules(rt: HostRuntime) {
    assert!(rt; VRule::V1.name() == "V1");
    assert!(rt; VRule::V5.name() == "V5");
}

// Tests of rankings by the fields of a record.
use ballots::ranking_of;
use csv::ByteRecord;
use csv_rows::{Fields, Rows};
use irv_base::{Candidate, Name};

#[test]
fn ranks_by_fields(rt: HostRuntime) {
    let mut rows = Rows::of(rt.alloc(), b"B, ,A,B\nA,C\n".as_slice());
    let mut row = ByteRecord::new(rt.alloc());
    let candidates = [
        Name::read(b"A".as_slice()).expect(&rt, "a name"),
        Name::read(b"B".as_slice()).expect(&rt, "a name"),
    ];
    assert!(rt; rows.read(&mut row) == Ok(true));
    let ranking = ranking_of(candidates.as_slice(), Fields::of(&row)).expect(&rt, "a ranking");
    assert!(rt; ranking.candidates() == [Candidate(1), Candidate(0)].as_slice());
    assert!(rt; rows.read(&mut row) == Ok(true));
    assert!(rt; ranking_of(candidates.as_slice(), Fields::of(&row)).is_none());
}

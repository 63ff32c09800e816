// Tests of `csv_rows`, over texts as an office may export them.
use csv::ByteRecord;
use csv_rows::{Fields, Records, Rows, number_of, without_mark};

#[test]
fn reads_numbered_records(rt: HostRuntime) {
    let text = b"\xEF\xBB\xBFa ,\t b\"\r\n \t\r\n\"\"\n\"c,\",";
    let mut rows = Rows::of(rt.alloc(), without_mark(text.as_slice()));
    let mut row = ByteRecord::new(rt.alloc());
    let found = rows.read_numbered(&mut row).expect(&rt, "a record");
    let mut fields = Fields::of(&row);
    assert!(rt; found && fields.len() == 2);
    assert!(rt; fields.next() == Some(b"a".as_slice()));
    assert!(rt; fields.next() == Some(b"b\"".as_slice()));
    assert!(rt; fields.next().is_none());
    let found = rows.read_numbered(&mut row).expect(&rt, "a record");
    let mut fields = Fields::of(&row);
    assert!(rt; found && fields.len() == 2);
    assert!(rt; fields.next() == Some(b"c,".as_slice()));
    assert!(rt; fields.next() == Some(b"".as_slice()));
    let found = rows.read_numbered(&mut row).expect(&rt, "no record");
    assert!(rt; !found);
}

#[test]
fn reads_every_record(rt: HostRuntime) {
    let mut rows = Rows::of(rt.alloc(), b"a\n \n".as_slice());
    let mut row = ByteRecord::new(rt.alloc());
    assert!(rt; rows.read(&mut row) == Ok(true));
    assert!(rt; rows.read(&mut row) == Ok(true));
    assert!(rt; rows.read(&mut row) == Ok(false));
}

#[test]
fn reads_lines(rt: HostRuntime) {
    let mut records = Records::of(rt.alloc(), b"a ,\tb,\r\n\r \t\rc".as_slice());
    assert!(rt; records.read() == Ok(true));
    let mut fields = records.fields();
    assert!(rt; fields.len() == 3);
    assert!(rt; fields.next() == Some(b"a".as_slice()));
    assert!(rt; fields.next() == Some(b"b".as_slice()));
    assert!(rt; fields.next() == Some(b"".as_slice()));
    assert!(rt; fields.next().is_none());
    assert!(rt; records.read() == Ok(true));
    assert!(rt; records.fields().next() == Some(b"c".as_slice()));
    assert!(rt; records.read() == Ok(false));
}

#[test]
fn reads_quotes(rt: HostRuntime) {
    let mut records = Records::of(rt.alloc(), b"\"a\n,\",b\nc".as_slice());
    assert!(rt; records.read() == Ok(true));
    let mut fields = records.fields();
    assert!(rt; fields.len() == 2);
    assert!(rt; fields.next() == Some(b"a\n,".as_slice()));
    assert!(rt; fields.next() == Some(b"b".as_slice()));
    assert!(rt; records.read() == Ok(true));
    assert!(rt; records.fields().next() == Some(b"c".as_slice()));
    assert!(rt; records.read() == Ok(false));
}

#[test]
fn reads_numbers(rt: HostRuntime) {
    assert!(rt; number_of(b"0010".as_slice()) == Some(10));
    assert!(rt; number_of(b"4294967296".as_slice()) == Some(4_294_967_296));
    assert!(rt; number_of(b"00000000001".as_slice()).is_none());
    assert!(rt; number_of(b"+1".as_slice()).is_none());
    assert!(rt; number_of(b"".as_slice()).is_none());
}

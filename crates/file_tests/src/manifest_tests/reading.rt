// Tests of manifests that are read.
use manifest::read_manifest;

#[test]
fn reads_a_manifest(rt: HostRuntime) {
    let file = b"\xEF\xBB\xBF batch ,\"cards\" \r\n \t\r\n99813_1,010\r\n\"b b\",2";
    let manifest = read_manifest(rt.alloc(), file.as_slice()).expect(&rt, "manifest");
    assert!(rt; manifest.cards() == 12);
    assert!(rt; manifest.card(10).k == 10);
    assert!(rt; manifest.card(10).batch.bytes() == b"99813_1".as_slice());
    assert!(rt; manifest.card(11).k == 1);
    assert!(rt; manifest.card(11).batch.bytes() == b"b b".as_slice());
    assert!(rt; manifest.place(b"99813_1_10".as_slice()) == Some(10));
    assert!(rt; manifest.place(b"b b_2".as_slice()) == Some(12));
}

#[test]
fn reads_an_id_of_56_bytes(rt: HostRuntime) {
    let file = b"batch,cards\n01234567890123456789012345678901234567890123456789012345,1";
    let manifest = read_manifest(rt.alloc(), file.as_slice()).expect(&rt, "manifest");
    let id = b"01234567890123456789012345678901234567890123456789012345_1";
    assert!(rt; manifest.place(id.as_slice()) == Some(1));
}

#[test]
fn places_no_other_id(rt: HostRuntime) {
    let read = read_manifest(rt.alloc(), b"batch,cards\nb,1".as_slice());
    let manifest = read.expect(&rt, "manifest");
    let ids: [&[u8]; 7] = [
        b"b_2".as_slice(),
        b"b_01".as_slice(),
        b"b_0".as_slice(),
        b"b".as_slice(),
        b"b_".as_slice(),
        b"B_1".as_slice(),
        b"c_1".as_slice(),
    ];
    for id in ids {
        assert!(rt; manifest.place(id).is_none());
    }
    assert!(rt; manifest.place(b"b_1".as_slice()) == Some(1));
}

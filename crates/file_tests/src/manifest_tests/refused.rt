// Tests of manifests that are refused, each with its rule and its record. Blank lines have no number, so the number of a record isn't that of
// its line.
use manifest::{MRule, ManifestFault, read_manifest};

/// Whether the manifest is refused by this rule at this record.
pub(super) fn is_refused(rt: &HostRuntime, file: &[u8], by: MRule, place: u64) -> bool {
    match read_manifest(rt.alloc(), file) {
        Err(ManifestFault::Refused { rule, at }) => rule == by && at == place,
        _ => false,
    }
}

#[test]
fn first_records_that_are_no_header(rt: HostRuntime) {
    let files: [(&str, &[u8]); 9] = [
        ("no bytes", b"".as_slice()),
        ("blank lines alone", b"\r\n \t\r\n\"\"\r\n".as_slice()),
        ("another word", b"batch,count\nb,1".as_slice()),
        (
            "behind blank lines",
            b"\r\n\"\"\r\n\"batch\" ,\"count\"\r\nb,1\r\n".as_slice(),
        ),
        ("capital letters", b"Batch,Cards\nb,1".as_slice()),
        ("a third field", b"batch,cards,\nb,1".as_slice()),
        ("a field alone", b"batch\nb,1".as_slice()),
        (
            "a blank before a quote",
            b"batch, \"cards\"\nb,1".as_slice(),
        ),
        ("a batch", b"b,1\nbatch,cards".as_slice()),
    ];
    for (shows, file) in files {
        assert!(rt; is_refused(&rt, file, MRule::M1, 1), "{shows}");
    }
}

#[test]
fn records_without_two_fields(rt: HostRuntime) {
    let files: [(&str, &[u8], u64); 5] = [
        ("one field", b"batch,cards\nb\n".as_slice(), 2),
        ("three fields", b"batch,cards\nb,1\nc,1,\n".as_slice(), 3),
        (
            "behind blank lines",
            b"batch,cards\r\n\r\n\"a\",1\r\n\"\"\r\n \t\r\n\"b\",\"1\",\"\"\r\n".as_slice(),
            3,
        ),
        (
            "a comma in quotes",
            b"\r\nbatch,cards\r\n\r\n\"b,1\"\r\n".as_slice(),
            2,
        ),
        (
            "a quote that is never closed",
            b"batch,cards\n\na,1\n\"b,1\nc,1\n".as_slice(),
            3,
        ),
    ];
    for (shows, file, at) in files {
        assert!(rt; is_refused(&rt, file, MRule::M2, at), "{shows}");
    }
}

#[test]
fn numbers_of_cards(rt: HostRuntime) {
    let files: [(&str, &[u8], u64); 8] = [
        ("no cards", b"batch,cards\nb,0".as_slice(), 2),
        (
            "behind blank lines",
            b"batch,cards\r\n\r\n\"a\",1\r\n \t\r\n\"b\",\"0\"\r\n".as_slice(),
            3,
        ),
        ("1,000,001 cards", b"batch,cards\nb,1000001".as_slice(), 2),
        (
            "1 and 2 to the 32",
            b"batch,cards\nb,4294967297".as_slice(),
            2,
        ),
        ("eleven digits", b"batch,cards\nb,00000000001".as_slice(), 2),
        ("a sign", b"batch,cards\nb,+1".as_slice(), 2),
        ("a blank number", b"batch,cards\nb, \t".as_slice(), 2),
        (
            "a line feed in quotes",
            b"\n\nbatch,cards\na,1\nb,\"1\n\"\n".as_slice(),
            3,
        ),
    ];
    for (shows, file, at) in files {
        assert!(rt; is_refused(&rt, file, MRule::M3, at), "{shows}");
    }
}

#[test]
fn ids_of_batches(rt: HostRuntime) {
    let files: [(&str, &[u8], u64); 8] = [
        ("twice", b"batch,cards\nb,1\nb,1".as_slice(), 3),
        (
            "twice, once in quotes",
            b"batch,cards\r\n\r\nb,1\r\n\"\"\r\n\"b\" ,2\r\n".as_slice(),
            3,
        ),
        ("no id", b"batch,cards\n,1".as_slice(), 2),
        (
            "57 bytes",
            b"batch,cards\n012345678901234567890123456789012345678901234567890123456,1".as_slice(),
            2,
        ),
        (
            "a byte above the range of ids",
            b"batch,cards\nb\xC3\xA9,1".as_slice(),
            2,
        ),
        (
            "a comma in quotes",
            b"\r\nbatch,cards\r\n\r\n\"b,1\",1\r\n".as_slice(),
            2,
        ),
        (
            "a line feed in quotes",
            b"batch,cards\na,1\n\n\"b\nb\",1\n".as_slice(),
            3,
        ),
        (
            "twice comes before its number",
            b"batch,cards\nb,1\nb,0".as_slice(),
            3,
        ),
    ];
    for (shows, file, at) in files {
        assert!(rt; is_refused(&rt, file, MRule::M4, at), "{shows}");
    }
}

#[test]
fn no_batch(rt: HostRuntime) {
    let alone = b"batch,cards";
    let blank = b"\xEF\xBB\xBF\r\n \t\r\n\"batch\",\"cards\" \r\n\"\"\r\n\r\n";
    assert!(rt; is_refused(&rt, alone.as_slice(), MRule::M6, 1));
    assert!(rt; is_refused(&rt, blank.as_slice(), MRule::M6, 1));
}

// Tests of the largest manifest, and of one card more.
use super::linking::{linked, ranked};
use super::refused::is_refused;
use irv_base::Candidate;
use manifest::{MRule, read_manifest};
use std::alloc::{AllocError, Global};
use std::test::Fail;

// Ten batches of a million cards.
const LARGEST: &str =
    "batch,cards\nb0,1000000\nb1,1000000\nb2,1000000\nb3,1000000\nb4,1000000\nb5,1000000\nb6,1000000\nb7,1000000\nb8,1000000\nb9,1000000\n";

// The largest manifest and additional lines.
fn with_lines(alloc: Global, lines: &str) -> Result<String, AllocError> {
    let mut text = String::from_str(alloc, LARGEST)?;
    text.push_str(lines)?;
    Ok(text)
}

#[test]
fn ten_million_cards(rt: HostRuntime) {
    let read = read_manifest(rt.alloc(), LARGEST.as_bytes());
    let manifest = read.expect(&rt, "manifest");
    assert!(rt; manifest.cards() == 10_000_000);
    assert!(rt; manifest.card(10_000_000).k == 1_000_000);
    assert!(rt; manifest.card(10_000_000).batch.bytes() == b"b9".as_slice());
    assert!(rt; manifest.place(b"b0_1000000".as_slice()) == Some(1_000_000));
    assert!(rt; manifest.place(b"b1_1".as_slice()) == Some(1_000_001));
    assert!(rt; manifest.place(b"b9_1000000".as_slice()) == Some(10_000_000));
    assert!(rt; manifest.place(b"b9_1000001".as_slice()).is_none());
}

#[test]
fn links_the_last_of_ten_million_cards(rt: HostRuntime) {
    let file = b"1\nContest,7,2,1,2\n7,b9_1000000,2";
    let read = linked(&rt, LARGEST.as_bytes(), file.as_slice(), None);
    let linked = read.expect(&rt, "two files").expect(&rt, "linked cards");
    assert!(rt; linked.cards() == 10_000_000);
    assert!(rt; ranked(&linked.recorded(10_000_000)) == Some([Candidate(1)].as_slice()));
    assert!(rt; ranked(&linked.recorded(9_999_999)).is_none());
}

#[test]
fn refuses_one_card_more(rt: HostRuntime) -> Result<(), Fail> {
    let cases = [
        ("one card", "c,1", MRule::M5, 12),
        (
            "behind blank lines",
            "\r\n \t\r\n\"\"\r\n\"c\",\"0000000001\"\r\n",
            MRule::M5,
            12,
        ),
        (
            "a million cards, and one record more",
            "c,1000000\nd\n",
            MRule::M5,
            12,
        ),
        ("no fields for it", "c", MRule::M2, 12),
        ("its id stood before", "b0,1", MRule::M4, 12),
        ("no number", "c,0", MRule::M3, 12),
    ];
    for (shows, lines, rule, at) in cases {
        let text = with_lines(rt.alloc(), lines)?;
        assert!(rt; is_refused(&rt, text.as_bytes(), rule, at), "{shows}");
    }
    Ok(())
}

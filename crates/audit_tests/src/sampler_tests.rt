// Tests of `sampler`. The expected cards come from Python's hashlib: `python3 bench/draw_values.py` prints them.
ghost use Rattle.std.specs.Prelude.{◌≤◌};

use sampler::{BadSeed, Seed, draw, reduce};
use sha2::{Digest, Sha256};
use std::test::Fail;

#[test]
fn digests_name_cards(rt: HostRuntime) {
    let digest = Sha256::digest(b"abc");
    assert_eq!(rt; reduce(&digest, 12), 2);
    assert_eq!(rt; reduce(&digest, 256), 174);

    let digest = Sha256::digest(b"");
    assert_eq!(rt; reduce(&digest, 256), 86);
    assert_eq!(rt; reduce(&digest, 16), 6);
    assert_eq!(rt; reduce(&digest, 1), 1);
}

fn drawn(seed: &Seed, cards: u32) -> [u32; 5]
    requires { 1 ≤ cards }
{
    [
        draw(seed, 1, cards),
        draw(seed, 9, cards),
        draw(seed, 10, cards),
        draw(seed, 99_999, cards),
        draw(seed, 100_000, cards),
    ]
}

#[test]
fn seed_2024_draws(rt: HostRuntime) -> Result<(), Fail> {
    let seed = Seed::read("2024")?;
    assert_eq!(rt; drawn(&seed, 1), [1; 5]);
    assert_eq!(rt; drawn(&seed, 12), [1, 10, 4, 3, 4]);
    assert_eq!(rt;
        drawn(&seed, 1_000_000),
        [381_041, 804_962, 693_164, 575_923, 499_596]
    );
    Ok(())
}

#[test]
fn limits_are_drawn(rt: HostRuntime) -> Result<(), Fail> {
    let seed = Seed::read(" ~ ~ ~ ~ ~ ~ ~ ~ ~ ~ ~ ~ ~ ~ ~ ~ ~ ~ ~ ~ ~ ~ ~ ~ ~ ~ ~ ~ ~ ~ ~ ~")?;
    assert_eq!(rt; draw(&seed, u64::MAX, u32::MAX), 1_028_737_268);
    Ok(())
}

#[test]
fn bad_seeds_are_refused(rt: HostRuntime) {
    for (text, bad) in [
        ("", BadSeed::Length(0)),
        (
            "a seed of sixty-five bytes, the last of which is one too many \u{7f}!!",
            BadSeed::Length(65),
        ),
        ("\u{1f}", BadSeed::Byte(0)),
        ("2024\u{7f}\n", BadSeed::Byte(4)),
        ("né", BadSeed::Byte(1)),
    ] {
        assert_eq!(rt; Seed::read(text).err(), Some(bad), "{text}");
    }
}

#[test]
fn a_bad_seed_is_told(rt: HostRuntime) -> Result<(), Fail> {
    let length = format!(in rt.alloc(); "{}", BadSeed::Length(65))?;
    assert_eq!(rt;
        length.as_str(),
        "a seed has 1 to 64 bytes, and this has 65"
    );
    let byte = format!(in rt.alloc(); "{}", BadSeed::Byte(4))?;
    assert_eq!(rt;
        byte.as_str(),
        "byte 4 of the seed, counted from 0, is no printable ASCII character"
    );
    Ok(())
}

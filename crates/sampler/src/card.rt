// The card of a draw.
ghost use Rattle.std.specs.Prelude.{◌≡◌, ◌≤◌, ◌%◌};
ghost use Rattle.sampler.specs.Draws.{number_of, card_of, drawn_card};

use crate::Seed;
use itoa::Buffer;
use sha2::{Digest, Sha256};

// Goes byte by byte, so that 64 bits are enough for any number of cards.
fn remainder(bytes: &[u8], cards: u32) -> u32
    requires { 1 ≤ cards }
    ensures { result ≡ number_of bytes.now % cards }
{
    let cards = u64::from(cards);
    let mut remainder = 0;
    for byte in bytes {
        remainder = (remainder * 256 + u64::from(*byte)) % cards;
    }
    remainder as u32
}

/// Returns the card that a digest names, counted from 1. It is the digest's 32 bytes as one number, most significant first, modulo the
/// number of cards, plus 1.
pub fn reduce(digest: &[u8; 32], cards: u32) -> u32
    requires { 1 ≤ cards }
    ensures card { result ≡ card_of digest.now cards }
    ensures least { 1 ≤ result }
    ensures most { result ≤ cards }
{
    remainder(digest, cards) + 1
}

/// Returns the card of draw number `k`, counted from 1. It is what `reduce` gives for the SHA-256 of the seed's bytes, a comma, and
/// `k` in decimal without leading zeros. Draws are with replacement.
pub fn draw(seed: &Seed, k: u64, cards: u32) -> u32
    requires { 1 ≤ cards }
    ensures card { result ≡ drawn_card seed.now k cards }
    ensures least { 1 ≤ result }
    ensures most { result ≤ cards }
{
    let mut number = Buffer::new();
    let mut hasher = Sha256::new();
    hasher.update(seed.bytes());
    hasher.update(b",");
    hasher.update(number.format(k).as_bytes());
    reduce(&hasher.finalize(), cards)
}

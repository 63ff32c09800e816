// The seed of an audit.
ghost use Rattle.std.specs.Prelude.{◌≡◌, IfOk, IfErr, IsTrue, is_ok};
ghost use Rattle.sampler.specs.Seeds.{is_seed, is_seed_byte, has_seed_length, first_bad_byte, Refuses};

use crate::MOST_SEED_BYTES;
use std::error::Error;
use std::fmt;
use std::marker::Model;

/// Why a text isn't a seed.
#[derive(Clone, Copy, Debug, PartialEq, Eq)]
pub enum BadSeed {
    /// It has this many bytes.
    Length(u64),
    /// The byte at this index, counted from 0, is the first that a seed can't have.
    Byte(u64),
}

impl fmt::Display for BadSeed {
    fn fmt<W: fmt::Write>(&self, f: &mut fmt::Formatter<W>) -> fmt::Result {
        match *self {
            BadSeed::Length(found) => write!(
                f,
                "a seed has 1 to {MOST_SEED_BYTES} bytes, and this has {found}"
            ),
            BadSeed::Byte(place) => write!(
                f,
                "byte {place} of the seed, counted from 0, is no printable ASCII character"
            ),
        }
    }
}

impl Error for BadSeed {}

/// The seed of an audit: 1 to `MOST_SEED_BYTES` printable ASCII characters, including spaces.
///
/// In a contract, a seed is its bytes.
#[derive(Clone, Copy)]
pub struct Seed {
    len: u8,
    text: [u8; MOST_SEED_BYTES],
}

impl Model for Seed {
    ghost use Rattle.std.specs.Prelude.{ℕ, List, ◌-◌, ◌++◌, take, length, replicate};
    ghost use Rattle.std.proofs.Common.{ap, sym, ◌∙◌};
    ghost use Rattle.sampler.specs.SeedArray.{HoldsSeed};
    ghost use Rattle.sampler.specs.declared.limits.TheConstants.{MOST_SEED_BYTES};

    ghost Value = { List ℕ };

    ghost view = { λ s. take s.len s.text };

    ghost invariant = { λ s. HoldsSeed s.len s.text };

    ghost inverse = { λ v. record {
      len = length v;
      text = v ++ replicate (MOST_SEED_BYTES - length v) 0;
    } };

    ghost inverse_ok = { λ s h i. record {
      len = h.long i;
      text = (ap (λ n. take s.len s.text ++ replicate (MOST_SEED_BYTES - n) 0) h.long
          ∙ sym h.padded) i;
    } };
}

fn is_seed_byte(b: u8) -> bool
    ensures { result ≡ is_seed_byte b }
{
    (b' '..=b'~').contains(&b)
}

fn has_seed_length(bytes: &[u8]) -> bool
    ensures { result ≡ has_seed_length bytes.now }
{
    !bytes.is_empty() && bytes.len() <= MOST_SEED_BYTES
}

fn first_bad_byte(bytes: &[u8]) -> Option<usize>
    ensures { result ≡ first_bad_byte bytes.now }
{
    bytes.iter().position(|b| !is_seed_byte(*b))
}

impl Seed {
    /// Reads a seed with the bytes of this text. If the text isn't a seed, the error is its length if that is wrong, and otherwise its first bad
    /// byte.
    pub fn read(text: &str) -> Result<Seed, BadSeed>
        ensures valid { is_ok result ≡ is_seed text.now }
        ensures seed { IfOk result (λ seed. seed ≡ text.now) }
        ensures refused { IfErr result (Refuses text.now) }
    {
        let bytes = text.as_bytes();
        if !has_seed_length(bytes) {
            return Err(BadSeed::Length(bytes.len() as u64));
        }
        if let Some(place) = first_bad_byte(bytes) {
            return Err(BadSeed::Byte(place as u64));
        }
        let mut text = [0; MOST_SEED_BYTES];
        text[..bytes.len()].copy_from_slice(bytes);
        Ok(Seed {
            len: bytes.len() as u8,
            text,
        })
    }

    /// Returns the seed's bytes, in ASCII, as they are hashed.
    pub fn bytes(&self) -> &[u8]
        ensures same { result.now ≡ self.now }
        ensures valid { IsTrue (is_seed self.now) }
    {
        &self.text[..usize::from(self.len)]
    }

    /// Returns the seed as a text.
    pub fn text(&self) -> &str
        ensures same { result.now ≡ self.now }
        ensures valid { IsTrue (is_seed self.now) }
    {
        str::from_utf8(self.bytes()).unwrap()
    }
}

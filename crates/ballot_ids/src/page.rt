// A page: the bits of ids that are alike except for the bytes that are counted.
ghost use Rattle.std.specs.Prelude.{◌≡◌, ◌<◌, ◌^◌, ◌||◌, ◌==◌, ℕ, IsTrue, bit_or};
ghost use Rattle.irv_base.specs.Names.{is_name};
ghost use Rattle.ballot_ids.specs.Ids.{front, has_bit, is_of, no_bits};
ghost use Rattle.ballot_ids.specs.Joined.{are_pages_apart, of_each, page_of_both, share_none};
ghost use Rattle.ballot_ids.specs.declared.page.TheConstants.{WORD_BITS};

use crate::same::is_same;
use irv_base::Name;
use std::marker::Model;

// The number of bits in a word, and the number of words on a page. So a page has a bit for each number of one byte.
const WORD_BITS: u8 = 64;

const WORDS: usize = 4;

/// This many bytes at the end of an id are counted, and give its bit. The bytes before them are its page's.
pub const COUNTED_BYTES: usize = 5;

/// The bits that are set on a page.
///
/// In a contract, it is the words of these bits.
#[derive(Clone, Copy)]
pub struct Bits([u64; WORDS]);

impl Model for Bits {
    ghost use Rattle.std.specs.Prelude.{ℕ, List};

    ghost Value = { List ℕ };

    ghost view = { λ p. p.0 };

    ghost inverse = { λ words. record { 0 = words } };
}

// The word in which only this bit is set.
fn only(bit: u8) -> u64
    requires { bit < WORD_BITS }
    ensures { result ≡ 2 ^ bit }
{
    1 << bit
}

impl Bits {
    /// The bits of a page on which no bit is set.
    pub fn none() -> Bits
        ensures { result ≡ no_bits }
    {
        Bits([0; WORDS])
    }

    /// Whether the bit is set.
    pub fn has(&self, bit: u8) -> bool
        ensures { result ≡ has_bit self.now bit }
    {
        (self.0[usize::from(bit / WORD_BITS)] >> (bit % WORD_BITS)) & 1 == 1
    }

    /// Sets the bit.
    pub fn set(&mut self, bit: u8)
        ensures { (other : ℕ)
            → has_bit self.new other ≡ (has_bit self.old other || (other == bit)) }
    {
        self.0[usize::from(bit / WORD_BITS)] |= only(bit % WORD_BITS);
    }

    /// Whether no bit is set on both.
    pub fn are_apart(&self, other: &Bits) -> bool
        ensures { result ≡ share_none self.now other.now }
    {
        self.0[0] & other.0[0] == 0
            && self.0[1] & other.0[1] == 0
            && self.0[2] & other.0[2] == 0
            && self.0[3] & other.0[3] == 0
    }

    /// The bits that are set on either.
    pub fn with_all(&self, other: &Bits) -> Bits
        ensures { result ≡ of_each bit_or self.now other.now }
    {
        Bits([
            self.0[0] | other.0[0],
            self.0[1] | other.0[1],
            self.0[2] | other.0[2],
            self.0[3] | other.0[3],
        ])
    }
}

/// What comes before the bytes of an id that are counted.
pub fn front(id: &[u8]) -> &[u8]
    ensures { result.now ≡ front id.now }
{
    &id[..id.len().saturating_sub(COUNTED_BYTES)]
}

/// What the ids on a page have in common, and which of them have been met.
#[derive(Clone, Copy)]
pub struct Page {
    /// One of these ids, or none if the page is for no ids.
    pub like: Option<Name>,
    /// The bits of the ids that have been met.
    pub bits: Bits,
}

impl Page {
    /// A page for no ids.
    pub fn none() -> Page
        ensures none { result.bits ≡ no_bits }
        ensures nobody { result.like ≡ None }
    {
        Page {
            like: None,
            bits: Bits::none(),
        }
    }

    /// A page for ids like this one, none of which has been met.
    pub fn of(id: &[u8]) -> Page
        ensures none { result.bits ≡ no_bits }
        ensures own { IsTrue (is_name id.now) → IsTrue (is_of result id.now) }
    {
        Page {
            like: Name::read(id),
            bits: Bits::none(),
        }
    }

    /// Whether the page is for ids like this one: those with the same number of bytes, and the same bytes in front of those that are
    /// counted.
    #[inline(always)]
    pub fn is_of(&self, id: &[u8]) -> bool
        ensures { result ≡ is_of self.now id.now }
    {
        match &self.like {
            Some(like) => {
                let like = like.bytes();
                like.len() == id.len() && is_same(front(like), front(id))
            }
            None => false,
        }
    }

    /// Whether the two can be joined and no id is on both: one is for no ids, or both are for ids alike and no bit is set on both.
    pub fn is_apart(&self, other: &Page) -> bool
        ensures { result ≡ are_pages_apart self.now other.now }
    {
        if self.like.is_none() {
            return true;
        }
        match &other.like {
            Some(like) => self.is_of(like.bytes()) && self.bits.are_apart(&other.bits),
            None => true,
        }
    }

    /// The page for the ids of both, if they can be joined.
    pub fn with_all(&self, other: &Page) -> Page
        ensures { result ≡ page_of_both self.now other.now }
    {
        if self.like.is_none() {
            return *other;
        }
        if other.like.is_none() {
            return *self;
        }
        Page {
            like: self.like,
            bits: self.bits.with_all(&other.bits),
        }
    }
}

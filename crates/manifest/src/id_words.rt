// Ids as words of eight bytes.
ghost use Rattle.std.specs.Prelude.{◌≡◌, ◌+◌, ◌≤◌, ◌==◌, length};
ghost use Rattle.std.proofs.Common.{refl};
ghost use Rattle.std.specs.Cmp.{partial_equiv_from_equiv, partial_order_from_agreeing_total};
ghost use Rattle.std.specs.Cmp.Lexicographic.{nat_list_cmp_total, nat_list_eq_equiv, pointwise, slice_cmp, texts_ties};
ghost use Rattle.std.specs.Ordering.{as_partial_cmp, nat_cmp};
ghost use Rattle.manifest.specs.IdWords.{word_at, words_of};

use irv_base::{MOST_NAME_BYTES, Name};
use std::cmp::Ordering;
use std::marker::Model;

// This many words have room for the longest id.
const WORDS: usize = 8;

/// The bytes of an id as words, padded with zeros. Two of these are compared in a few steps.
///
/// In a contract, it is the list of the words. No two ids have the same words.
#[derive(Clone, Copy)]
pub struct IdWords([u64; WORDS]);

impl Model for IdWords {
    ghost use Rattle.std.specs.Prelude.{ℕ, List};

    ghost Value = { List ℕ };

    ghost view = { λ w. w.0 };

    ghost inverse = { λ words. record { 0 = words } };
}

// The eight bytes from a place on, most significant first.
#[tactic(auto, unfolding(crate::specs::IdWords::word_at))]
fn word_at(text: &[u8], at: usize) -> u64
    requires { at + 8 ≤ length text.now }
    ensures { result ≡ word_at text.now at }
{
    u64::from_be_bytes([
        text[at],
        text[at + 1],
        text[at + 2],
        text[at + 3],
        text[at + 4],
        text[at + 5],
        text[at + 6],
        text[at + 7],
    ])
}

impl IdWords {
    /// The words of an id.
    pub fn of(id: &Name) -> IdWords
        ensures { result ≡ words_of id.now }
    {
        let own = id.bytes();
        let mut text = [0; MOST_NAME_BYTES];
        text[..own.len()].copy_from_slice(own);
        IdWords([
            word_at(&text, 0),
            word_at(&text, 8),
            word_at(&text, 16),
            word_at(&text, 24),
            word_at(&text, 32),
            word_at(&text, 40),
            word_at(&text, 48),
            word_at(&text, 56),
        ])
    }
}

impl PartialEq for IdWords {
    ghost eq = { pointwise ◌==◌ };

    ghost laws = { partial_equiv_from_equiv nat_list_eq_equiv };

    fn eq(&self, other: &IdWords) -> bool {
        self.0 == other.0
    }
}

impl Eq for IdWords {
    ghost laws = { nat_list_eq_equiv };
}

impl Ord for IdWords {
    ghost cmp = { slice_cmp nat_cmp };

    ghost total = { nat_list_cmp_total };

    ghost matches_partial_cmp = { λ x y. refl };

    ghost matches_eq = { texts_ties };

    fn cmp(&self, other: &IdWords) -> Ordering {
        for i in 0..WORDS {
            if self.0[i] != other.0[i] {
                return self.0[i].cmp(&other.0[i]);
            }
        }
        Ordering::Equal
    }
}

impl PartialOrd for IdWords {
    ghost partial_cmp = { as_partial_cmp (slice_cmp nat_cmp) };

    ghost laws = { partial_order_from_agreeing_total (slice_cmp nat_cmp) nat_list_cmp_total
        (λ x y. refl) texts_ties };

    fn partial_cmp(&self, other: &IdWords) -> Option<Ordering> {
        Some(self.cmp(other))
    }
}

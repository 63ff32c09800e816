// Names of contests, candidates and ballots.
ghost use Rattle.std.specs.Prelude.{◌≡◌, ◌<◌, ◌≤◌, ◌==◌, IfSome, IfNone, IsTrue, false, length, position};
ghost use Rattle.std.proofs.Common.{rules};
ghost use Rattle.std.specs.Hash as fed;
ghost use Rattle.std.specs.Cmp.Rules.{comparing, hashing};
ghost use Rattle.std.specs.Cmp.Lexicographic.{pointwise};
ghost use Rattle.std.specs.List.{list_all};
ghost use Rattle.irv_base.specs.Names.{is_name, is_name_byte, is_same, has_name_length, touches_space, candidate_named};
ghost use Rattle.irv_base.specs.declared.limits.TheConstants.{ROOM};

use crate::{Candidate, MOST_NAME_BYTES};
use std::hash::{Hash, Hasher};
use std::marker::Model;

/// The id of a contest, a candidate or a ballot. It has 1 to `MOST_NAME_BYTES` printable ASCII characters, contains no comma and no
/// double quote, and neither begins nor ends with a space.
///
/// In a contract, a name is its bytes.
#[derive(Clone, Copy)]
pub struct Name {
    len: u8,
    text: [u8; MOST_NAME_BYTES],
}

impl Model for Name {
    ghost use Rattle.std.specs.Prelude.{ℕ, List, ◌-◌, ◌++◌, take, length, replicate};
    ghost use Rattle.std.proofs.Common.{ap, sym, ◌∙◌};
    ghost use Rattle.irv_base.specs.Places.{IsName};
    ghost use Rattle.irv_base.specs.declared.limits.TheConstants.{MOST_NAME_BYTES};

    ghost Value = { List ℕ };

    ghost view = { λ s. take s.len s.text };

    ghost invariant = { λ s. IsName s.len s.text };

    ghost inverse = { λ v. record {
      len = length v;
      text = v ++ replicate (MOST_NAME_BYTES - length v) 0;
    } };

    ghost inverse_ok = { λ s h i. record {
      len = h.long i;
      text = (ap (λ n. take s.len s.text ++ replicate (MOST_NAME_BYTES - n) 0) h.long
          ∙ sym h.padded) i;
    } };
}

fn is_name_byte(b: u8) -> bool
    ensures { result ≡ is_name_byte b }
{
    (b' '..=b'~').contains(&b) && b != b'"' && b != b','
}

fn has_name_length(bytes: &[u8]) -> bool
    ensures { result ≡ has_name_length bytes.now }
{
    !bytes.is_empty() && bytes.len() <= MOST_NAME_BYTES
}

fn touches_space(bytes: &[u8]) -> bool
    requires { 0 < length bytes.now }
    ensures { result ≡ touches_space bytes.now }
{
    bytes[0] == b' ' || bytes[bytes.len() - 1] == b' '
}

fn are_name_bytes(bytes: &[u8]) -> bool
    ensures { result ≡ list_all is_name_byte bytes.now }
{
    bytes.iter().all(|b| is_name_byte(*b))
}

fn is_name(bytes: &[u8]) -> bool
    ensures { result ≡ is_name bytes.now }
{
    has_name_length(bytes) && !touches_space(bytes) && are_name_bytes(bytes)
}

impl Name {
    /// Returns the name with these bytes, if they form a name.
    pub fn read(bytes: &[u8]) -> Option<Name>
        ensures name { IfSome result (λ name. name ≡ bytes.now) }
        ensures valid { IfSome result (λ _. IsTrue (is_name bytes.now)) }
        ensures none { IfNone result (is_name bytes.now ≡ false) }
    {
        if !is_name(bytes) {
            return None;
        }
        let mut text = [0; MOST_NAME_BYTES];
        text[..bytes.len()].copy_from_slice(bytes);
        Some(Name {
            len: bytes.len() as u8,
            text,
        })
    }

    /// The bytes of the name: ASCII, 1 to `MOST_NAME_BYTES` of them.
    pub fn bytes(&self) -> &[u8]
        ensures same { result.now ≡ self.now }
        ensures valid { IsTrue (is_name self.now) }
    {
        &self.text[..usize::from(self.len)]
    }

    /// The characters of the name, as text.
    pub fn text(&self) -> &str
        ensures same { result.now ≡ self.now }
        ensures valid { IsTrue (is_name self.now) }
    {
        // ASCII is UTF-8.
        unsafe { str::from_utf8_unchecked(self.bytes()) }
    }
}

impl PartialEq for Name {
    ghost eq = { pointwise ◌==◌ };

    ghost laws = { Prim.search (comparing, rules) };

    fn eq(&self, other: &Name) -> bool {
        self.bytes() == other.bytes()
    }
}

impl Eq for Name {
    ghost laws = { Prim.search (comparing, rules) };
}

impl Hash for Name {
    ghost hash_input = { fed.slice fed.u8 };

    ghost respects_eq = { Prim.search (hashing, rules) };

    fn hash<H: Hasher>(&self, state: &mut H) {
        self.bytes().hash(state);
    }
}

fn place_of(names: &[Name], id: &[u8]) -> Option<usize>
    ensures { result ≡ position (λ name. is_same name id.now) names.now }
{
    names.iter().position(|name| name.bytes() == id)
}

/// Returns the candidate with this id, if these are the ids of the candidates.
pub fn candidate_named(names: &[Name], id: &[u8]) -> Option<Candidate>
    requires { length names.now ≤ ROOM }
    ensures named { result ≡ candidate_named names.now id.now }
    ensures within { IfSome result (λ c. c < length names.now) }
{
    match place_of(names, id) {
        Some(place) => Some(Candidate(place as u8)),
        None => None,
    }
}

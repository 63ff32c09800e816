// Ids on pages. Each differs from all others there, which requires no comparison.
//
// A page has 256 bits. With 64 bits it would take 24 bytes less, and hold up to forty ids that count up instead of a hundred.
ghost use Rattle.std.specs.Prelude.{◌≡◌, ◌≢◌, ◌≤◌, ◌||◌, ℕ, IfOk, OnOk, OnErr, true, false, length};
ghost use Rattle.irv_base.specs.Names.{Id, is_same};
ghost use Rattle.ballot_ids.specs.Ids.{AreBytes, HasTurned, bit_of, counted, digest, is_elsewhere, is_paged, number_behind, page_at, page_number};
ghost use Rattle.ballot_ids.specs.declared.page.TheConstants.{COUNTED_BYTES};
ghost use Rattle.ballot_ids.specs.declared.pages.Mark.TheVariants.{Elsewhere, Fresh, Met};

use crate::page::{COUNTED_BYTES, Page, front};
use irv_base::Memory;
use std::alloc::Global;
use std::collections::BTreeMap;
use std::hash::{FoldHasher, Hasher};

/// The pages of ids that have been met. One page is open: if ids count up, each is on the page of the one before. The others are in order,
/// so no choice of ids makes them slow to find.
#[derive(Drop)]
pub struct Pages {
    /// The number of the open page.
    pub open: u64,
    /// That page.
    pub page: Page,
    /// The pages that were closed. An entry for the open page doesn't count.
    pub closed: BTreeMap<u64, Page>,
}

/// The result of marking an id.
#[derive(Clone, Copy, PartialEq, Eq)]
pub enum Mark {
    /// The id wasn't marked, and is marked now.
    Fresh,
    /// The id was already marked.
    Met,
    /// The page with the id's number is for other ids, so the id isn't marked. It is predictable which ids share a number, so a file may
    /// have many ids like this.
    Elsewhere,
}

/// A number that is computed from bytes. Other bytes may give the same number.
pub fn digest(bytes: &[u8]) -> u64
    ensures { result ≡ digest bytes.now }
{
    let mut hasher = FoldHasher::default();
    hasher.write(bytes);
    hasher.finish()
}

// The number that these bytes are, the first of them most significant.
fn number_of(bytes: &[u8]) -> u64
    ensures { result ≡ number_behind 0 bytes.now }
{
    let mut n: u64 = 0;
    for i in 0..bytes.len() {
        n = n.wrapping_mul(1 << 8).wrapping_add(u64::from(bytes[i]));
    }
    n
}

// The number that the last `COUNTED_BYTES` bytes are. The loop has a known end, so no loop remains once it is built.
fn number_of_last(id: &[u8]) -> u64
    requires { COUNTED_BYTES ≤ length id.now }
    ensures { result ≡ counted id.now }
{
    let first = id.len() - COUNTED_BYTES;
    let mut n: u64 = 0;
    for i in 0..COUNTED_BYTES {
        n = n
            .wrapping_mul(1 << 8)
            .wrapping_add(u64::from(id[first + i]));
    }
    n
}

// What the last bytes of an id count.
fn counted(id: &[u8]) -> u64
    ensures { result ≡ counted id.now }
{
    if id.len() < COUNTED_BYTES {
        return number_of(id);
    }
    number_of_last(id)
}

// The number of the page of an id whose last bytes count this much.
fn page_number(id: &[u8], count: u64) -> u64
    requires { count ≡ counted id.now }
    ensures { result ≡ page_number id.now }
{
    digest(front(id)).wrapping_add(count / 4096 * 16 + count / 16 % 16)
}

// The bit of an id whose last bytes count this much.
fn bit(count: u64) -> u8
    ensures { result ≡ bit_of count }
{
    (count % 16 + count / 256 % 16 * 16) as u8
}

impl Pages {
    /// Only an empty page.
    pub fn new(alloc: Global) -> Pages
        ensures none { (id : Id) → is_paged result id ≡ false }
    {
        Pages {
            open: 0,
            page: Page::none(),
            closed: BTreeMap::new(alloc),
        }
    }

    // Opens the page with this number, or a new one for ids like this one if there is none. Ids that count up are mostly on the open page.
    fn turn_to(&mut self, number: u64, id: &[u8]) -> Result<(), Memory>
        ensures turned { OnOk result (HasTurned self.old self.new number id.now) }
        ensures same { OnErr result ((n : ℕ) → page_at self.new n ≡ page_at self.old n) }
    {
        if number == self.open {
            return Ok(());
        }
        self.close_for(number, id)
    }

    // Does the same if another page is open. Few ids that count up turn a page, so this isn't inlined.
    #[inline(never)]
    fn close_for(&mut self, number: u64, id: &[u8]) -> Result<(), Memory>
        requires away { number ≢ self.old.open }
        ensures turned { OnOk result (HasTurned self.old self.new number id.now) }
        ensures same { OnErr result ((n : ℕ) → page_at self.new n ≡ page_at self.old n) }
    {
        self.closed.insert(self.open, self.page)?;
        self.page = match self.closed.get(&number) {
            Some(page) => *page,
            None => Page::of(id),
        };
        self.open = number;
        Ok(())
    }

    /// Marks an id on its page, if the page is for ids like it.
    pub fn mark(&mut self, id: &[u8]) -> Result<Mark, Memory>
        ensures fresh { IfOk result (λ mark. mark ≡ Fresh → is_paged self.old id.now ≡ false) }
        ensures met { IfOk result (λ mark. mark ≡ Met → is_paged self.old id.now ≡ true) }
        ensures elsewhere { IfOk result (λ mark. mark ≡ Elsewhere
            → is_elsewhere self.new id.now ≡ true) }
        ensures here { IfOk result (λ mark. mark ≢ Elsewhere
            → is_elsewhere self.new id.now ≡ false) }
        ensures marked { IfOk result (λ mark. mark ≡ Fresh → (other : Id) → AreBytes other
            → is_paged self.new other ≡ (is_same id.now other || is_paged self.old other)) }
        ensures same { IfOk result (λ mark. mark ≢ Fresh → (other : Id)
            → is_paged self.new other ≡ is_paged self.old other) }
        ensures failed { OnErr result ((other : Id)
            → is_paged self.new other ≡ is_paged self.old other) }
        ensures stays { (other : Id) → is_elsewhere self.old other ≡ true
            → is_elsewhere self.new other ≡ true }
    {
        let count = counted(id);
        self.turn_to(page_number(id, count), id)?;
        if !self.page.is_of(id) {
            return Ok(Mark::Elsewhere);
        }
        let bit = bit(count);
        if self.page.bits.has(bit) {
            return Ok(Mark::Met);
        }
        self.page.bits.set(bit);
        Ok(Mark::Fresh)
    }
}

// Pages of ids that were met side by side: whether they are apart, and how they are joined.
ghost use Rattle.std.specs.Prelude.{◌≡◌, ◌≢◌, ◌↔◌, ℕ, Some, OnOk, IsTrue};
ghost use Rattle.ballot_ids.specs.Ids.{page_at};
ghost use Rattle.ballot_ids.specs.Joined.{are_apart, of_both, AreAllApart, AreOfBoth};

use crate::page::Page;
use crate::pages::Pages;
use irv_base::Memory;

impl Pages {
    // Whether another's page with this number is apart from the page of these.
    fn is_apart(&self, number: u64, page: &Page) -> bool
        ensures { result ≡ are_apart (page_at self.now number) (Some page.now) }
    {
        if number == self.open {
            return self.page.is_apart(page);
        }
        match self.closed.get(&number) {
            Some(own) => own.is_apart(page),
            None => true,
        }
    }

    // Whether another's closed pages are apart from these.
    fn are_closed_apart(&self, other: &Pages) -> bool
        ensures { IsTrue result ↔ ((number : ℕ) → number ≢ other.now.open
            → IsTrue (are_apart (page_at self.now number) (page_at other.now number))) }
    {
        for (number, page) in &other.closed {
            if *number != other.open && !self.is_apart(*number, page) {
                return false;
            }
        }
        true
    }

    /// Whether pages with the same number are apart, whatever the number. So no id is on both.
    pub fn are_apart(&self, other: &Pages) -> bool
        ensures { IsTrue result ↔ AreAllApart self.now other.now }
    {
        self.is_apart(other.open, &other.page) && self.are_closed_apart(other)
    }

    // Puts the ids of another's page with this number among these.
    fn put(&mut self, number: u64, page: &Page) -> Result<(), Memory>
        ensures put { OnOk result (page_at self.new number
            ≡ of_both (page_at self.old number) (Some page.now)) }
        ensures others { OnOk result ((n : ℕ) → n ≢ number
            → page_at self.new n ≡ page_at self.old n) }
    {
        if number == self.open {
            self.page = self.page.with_all(page);
            return Ok(());
        }
        let own = self.closed.entry(number)?.or_insert(Page::none());
        *own = own.with_all(page);
        Ok(())
    }

    // Puts the ids of another's closed pages among these.
    fn put_closed(&mut self, other: &Pages) -> Result<(), Memory>
        ensures put { OnOk result ((number : ℕ) → number ≢ other.now.open → page_at self.new number
            ≡ of_both (page_at self.old number) (page_at other.now number)) }
        ensures same { OnOk result (page_at self.new other.now.open
            ≡ page_at self.old other.now.open) }
    {
        for (number, page) in &other.closed {
            if *number != other.open {
                self.put(*number, page)?;
            }
        }
        Ok(())
    }

    /// Puts another's ids among these.
    pub fn join(&mut self, other: &Pages) -> Result<(), Memory>
        ensures { OnOk result (AreOfBoth self.old other.now self.new) }
    {
        self.put_closed(other)?;
        self.put(other.open, &other.page)?;
        Ok(())
    }
}

// What a desk has served, whether or not it reports its files.
//
// A ghost member must be a function of the value, so these counts exist at run time. No code reads them to form an answer.
ghost use Rattle.std.specs.Prelude.{◌≡◌, max};
ghost use Rattle.desk.specs.Count.{grown, one_more};
ghost use Rattle.desk.specs.Passing.{passing};

use irv_base::MOST_FILE_BYTES;

/// What a desk has served so far, whether or not it reports its files. Each count stops at the greatest u64.
///
/// A `Desk` keeps one of these to report what came of its calls. It calls `begin` at the start of each of its own `begin` calls,
/// then `miss` if its `begin` answers false, and `give` at each read that succeeds.
#[derive(Clone, Copy, Debug, PartialEq, Eq)]
pub struct Served {
    /// How often `begin` was called.
    pub begins: u64,
    /// How often `begin` answered false.
    pub misses: u64,
    /// The number of bytes that came since the last `begin`.
    pub bytes: u64,
    /// The maximum number of bytes that ever came between one `begin` and the next.
    pub longest: u64,
    /// How often more than `MOST_FILE_BYTES` came between one `begin` and the next.
    pub too_long: u64,
}

impl Served {
    ghost use Rattle.desk.specs.Served.{nothing};

    /// Nothing has been served yet.
    pub fn new() -> Served
        ensures { result ≡ nothing }
    {
        Served {
            begins: 0,
            misses: 0,
            bytes: 0,
            longest: 0,
            too_long: 0,
        }
    }

    /// Counts a request for a file.
    pub fn begin(&mut self)
        ensures { self.new ≡ record self.old { begins = one_more self.old.begins; bytes = 0 } }
    {
        self.begins = self.begins.saturating_add(1);
        self.bytes = 0;
    }

    /// Counts a file that doesn't exist.
    pub fn miss(&mut self)
        ensures { self.new ≡ record self.old { misses = one_more self.old.misses } }
    {
        self.misses = self.misses.saturating_add(1);
    }

    /// Counts this many bytes given from the open file.
    pub fn give(&mut self, count: usize)
        ensures { let bytes = grown self.old.bytes count in
            self.new ≡ record self.old {
              bytes = bytes;
              longest = max self.old.longest bytes;
              too_long = passing self.old.bytes bytes self.old.too_long;
            } }
    {
        let before = self.bytes;
        self.bytes = before.saturating_add(count as u64);
        self.longest = self.longest.max(self.bytes);
        if before <= MOST_FILE_BYTES && self.bytes > MOST_FILE_BYTES {
            self.too_long = self.too_long.saturating_add(1);
        }
    }
}

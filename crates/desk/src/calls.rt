// Which of the calls in memory fail.
ghost use Rattle.std.specs.Prelude.{◌≡◌};
ghost use Rattle.desk.specs.Count.{one_more};
ghost use Rattle.desk.specs.Calls.{is_to_fail};

/// Calls, counted from 1, some of which are to fail.
#[derive(Drop)]
pub(crate) struct Calls {
    pub(crate) fails: Vec<u32>,
    pub(crate) made: u64,
}

impl Calls {
    pub(crate) fn new(fails: Vec<u32>) -> Calls
        ensures fails { result.fails.items ≡ fails.items }
        ensures made { result.made ≡ 0 }
    {
        Calls { fails, made: 0 }
    }

    /// Counts the next call, and says whether it is to fail.
    pub(crate) fn next_fails(&mut self) -> bool
        ensures answer { result ≡ is_to_fail self.old.fails.items (one_more self.old.made) }
        ensures fails { self.new.fails ≡ self.old.fails }
        ensures made { self.new.made ≡ one_more self.old.made }
    {
        self.made = self.made.saturating_add(1);
        let number = self.made;
        self.fails.iter().any(|n| u64::from(*n) == number)
    }
}

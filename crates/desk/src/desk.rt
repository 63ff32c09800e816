// The source of files.
ghost use Rattle.std.specs.Prelude.{◌≡◌, ◌<◌, ℕ, List, Bool, true, Option, length, take, is_ok, is_some, IfOk, IfSome};
ghost use Rattle.std.specs.Io.{ReadsAtMost};
ghost use Rattle.std.specs.Io.KnownBytes.{Consumes, IsAtEnd};
ghost use Rattle.desk.specs.Count.{HasCause};
ghost use Rattle.desk.specs.Desk.{File, held_bytes, is_ok_true};
ghost use Rattle.desk.specs.Served.{after_begin, after_read};
ghost use Rattle.desk.specs.declared.served.Served.{Served};

use std::error::Error;
use std::fmt;

/// A call to the outside world failed.
#[derive(Clone, Copy, Debug, PartialEq, Eq)]
pub struct Failed;

impl fmt::Display for Failed {
    fn fmt<W: fmt::Write>(&self, f: &mut fmt::Formatter<W>) -> fmt::Result {
        write!(f, "a call to the outside failed")
    }
}

impl Error for Failed {}

/// Files, which are read one at a time. After a call that failed, no file is begun.
pub trait Desk {
    /// The files that are held, or unknown. No call changes them.
    ghost held: { Self → Option (List File) };

    /// What is left of the begun file, or unknown.
    ghost left: { Self → Option (List ℕ) };

    /// Whether a file is begun.
    ghost begun: { Self → Bool };

    /// How often the desk has failed. The count stops at the greatest u64.
    ghost faults: { Self → ℕ };

    /// How often a file was begun, how often there was none, and how many bytes came.
    ghost served: { Self → Served };

    /// Begins the file with this name, at its start. After `Ok(false)` there is no such file, and none is begun.
    fn begin(&mut self, name: &str) -> Result<bool, Failed>
        ensures held { held self.new ≡ held self.old }
        ensures begun { begun self.new ≡ is_ok_true result }
        ensures found { IfSome (held self.old) (λ files. IfOk result (λ found.
            found ≡ is_some (held_bytes name.now files))) }
        ensures start { IfSome (held self.old) (λ files. is_ok_true result ≡ true →
            left self.new ≡ held_bytes name.now files) }
        ensures served { served self.new ≡ after_begin result (served self.old) }
        ensures cause { HasCause (faults self.old) (faults self.new) result };

    /// Reads the next bytes of the begun file. `Ok(0)` for a piece that has room means that the file is at its end.
    fn read(&mut self, into: &mut [u8]) -> Result<usize, Failed>
        requires { begun self.old ≡ true }
        ensures held { held self.new ≡ held self.old }
        ensures begun { begun self.new ≡ is_ok result }
        ensures bound { ReadsAtMost result into.new }
        ensures bytes { IfOk result (λ n.
            Consumes (left self.old) (left self.new) (take n into.new)) }
        ensures end { IfOk result (λ n. n ≡ 0 → 0 < length into.new → IsAtEnd (left self.new)) }
        ensures served { served self.new ≡ after_read result (served self.old) }
        ensures cause { HasCause (faults self.old) (faults self.new) result };
}

// A text in memory, for tests. It reports everything.
ghost use Rattle.std.specs.Prelude.{◌≡◌, ◌<◌, ◌≤◌, ◌-◌, ◌||◌, [], length, is_err, Some, nat_lt, IfOk};
ghost use Rattle.std.specs.Io.KnownBytes.{WriteAppends};
ghost use Rattle.desk.specs.Count.{one_more, HasCause};
ghost use Rattle.desk.specs.Calls.{is_to_fail, faults_after};

use crate::calls::Calls;
use crate::{Failed, Sink};
use irv_base::Memory;
use std::alloc::Global;
use std::marker::Model;

/// A text in memory, of a bounded length.
#[derive(Drop)]
pub struct MemorySink {
    taken: Vec<u8>,
    room: usize,
    writes: Calls,
    faults: u64,
}

impl Model for MemorySink {
    ghost use Rattle.std.specs.Prelude.{◌≤◌, vec_len, vec_capacity};
    ghost use Rattle.desk.specs.MemorySink.{SinkView};

    ghost Value = { SinkView };

    ghost view = { λ s. record {
      taken = s.taken.items;
      room = s.room;
      fails = s.writes.fails.items;
      writes = s.writes.made;
      faults = s.faults;
    } };

    ghost invariant = { λ s. (s.room ≤ vec_capacity s.taken) × (vec_len s.taken ≤ s.room) };
}

impl MemorySink {
    /// Creates a sink with room for this many bytes. Its writes are counted from 1. Exactly those writes fail whose numbers
    /// are in `fails` or whose piece doesn't fit into the room that is left.
    pub fn new(alloc: Global, room: u32, fails: Vec<u32>) -> Result<MemorySink, Memory>
        ensures { IfOk result (λ sink. sink ≡ record {
          taken = [];
          room = room;
          fails = fails.items;
          writes = 0;
          faults = 0;
        }) }
    {
        let room = room as usize;
        Ok(MemorySink {
            taken: Vec::with_capacity(alloc, room)?,
            room,
            writes: Calls::new(fails),
            faults: 0,
        })
    }

    /// The bytes taken.
    pub fn bytes(&self) -> &[u8]
        ensures { result.now ≡ self.now.taken }
    {
        &self.taken
    }
}

impl Sink for MemorySink {
    ghost taken = { λ s. Some s.taken };

    ghost faults = { λ s. s.faults };

    fn write(&mut self, bytes: &[u8]) -> Result<usize, Failed>
        ensures bound { IfOk result (λ n. n ≤ length bytes.now) }
        ensures some { IfOk result (λ n. 0 < length bytes.now → 0 < n) }
        ensures bytes { WriteAppends (Some self.old.taken) (Some self.new.taken) result bytes.now }
        ensures cause { HasCause self.old.faults self.new.faults result }

        // Exactly those writes fail that are to fail or whose piece doesn't fit. Any other write takes the whole piece.
        ensures fails { is_err result ≡ (is_to_fail self.old.fails (one_more self.old.writes)
            || nat_lt (self.old.room - length self.old.taken) (length bytes.now)) }
        ensures whole { IfOk result (λ n. n ≡ length bytes.now) }
        ensures faults { self.new.faults ≡ faults_after result self.old.faults }
        ensures writes { self.new.writes ≡ one_more self.old.writes }
        ensures same_room { self.new.room ≡ self.old.room }
        ensures same_fails { self.new.fails ≡ self.old.fails }
    {
        let fails = self.writes.next_fails();
        if fails || bytes.len() > self.room - self.taken.len() {
            self.faults = self.faults.saturating_add(1);
            return Err(Failed);
        }
        match self.taken.extend_from_slice(bytes) {
            Ok(()) => Ok(bytes.len()),
            Err(_) => unreachable!(),
        }
    }
}

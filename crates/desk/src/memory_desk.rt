// Files in memory, for tests. They report everything.
ghost use Rattle.std.specs.Prelude.{◌≡◌, ◌<◌, ◌≤◌, ◌++◌, true, false, [], length, take, drop, min, is_ok, is_some, is_err, None, Some, IfOk, MatchOption, slice_get};
ghost use Rattle.std.specs.Io.{ReadsAtMost};
ghost use Rattle.desk.specs.Count.{one_more, HasCause};
ghost use Rattle.desk.specs.Desk.{held_bytes, is_ok_true};
ghost use Rattle.desk.specs.Served.{nothing, after_begin, after_read};
ghost use Rattle.desk.specs.Calls.{is_to_fail, faults_after};
ghost use Rattle.desk.specs.MemoryDesk.{files_of, left_from, bytes_from};

use crate::calls::Calls;
use crate::{Desk, Failed, Served};
use irv_base::Name;
use std::marker::Model;

/// A file in memory.
#[derive(Drop)]
pub struct Named {
    /// The name under which it is held.
    pub name: Name,
    /// What it holds, from its first byte.
    pub bytes: Vec<u8>,
}

// A place in a file.
#[derive(Clone, Copy)]
pub(crate) struct Place {
    file: usize,
    at: usize,
}

/// Files in memory. The first file with a name is the one held.
#[derive(Drop)]
pub struct MemoryDesk {
    files: Vec<Named>,
    place: Option<Place>,
    calls: Calls,
    faults: u64,
    served: Served,
}

impl Model for MemoryDesk {
    ghost use Rattle.std.specs.Prelude.{is_some};
    ghost use Rattle.desk.specs.MemoryDesk.{DeskView, files_of, left_from};

    ghost Value = { DeskView };

    ghost view = { λ d. record {
      files = files_of d.files.items;
      begun = is_some d.place;
      left = left_from d.files.items d.place;
      fails = d.calls.fails.items;
      calls = d.calls.made;
      faults = d.faults;
      served = d.served;
    } };
}

impl MemoryDesk {
    /// The calls of `begin` and `read` are counted together, from 1. Exactly the calls whose numbers are in `fails` fail.
    pub fn new(files: Vec<Named>, fails: Vec<u32>) -> MemoryDesk
        ensures { result ≡ record {
          files = files_of files.items;
          begun = false;
          left = [];
          fails = fails.items;
          calls = 0;
          faults = 0;
          served = nothing;
        } }
    {
        MemoryDesk {
            files,
            place: None,
            calls: Calls::new(fails),
            faults: 0,
            served: Served::new(),
        }
    }
}

// The first file with this name.
fn place_of(files: &[Named], name: &str) -> Option<usize>
    ensures found { MatchOption result (held_bytes name.now (files_of files.now) ≡ None)
        (λ i. held_bytes name.now (files_of files.now)
        ≡ Some (bytes_from 0 (slice_get files.now i))) }
{
    for (i, file) in files.iter().enumerate() {
        if file.name.bytes() == name.as_bytes() {
            return Some(i);
        }
    }
    None
}

// Copies the bytes from an offset on, as many as there is room for, and moves the offset past them.
fn copy_from(bytes: &[u8], at: &mut usize, into: &mut [u8]) -> usize
    ensures count { result ≡ min (length into.new) (length (drop at.old bytes.now)) }
    ensures bytes { drop at.old bytes.now ≡ take result into.new ++ drop at.new bytes.now }
{
    let start = *at;
    if bytes.len() < start {
        return 0;
    }
    let rest = &bytes[start..];
    let count = rest.len().min(into.len());
    into[..count].copy_from_slice(&rest[..count]);
    *at = start + count;
    count
}

// Copies the next bytes of the file at a place, as many as there is room for, and moves the place past them.
fn copy_next(files: &[Named], place: &mut Place, into: &mut [u8]) -> usize
    ensures count { result ≡ min (length into.new) (length (left_from files.now (Some place.old))) }
    ensures bytes { left_from files.now (Some place.old) ≡
        take result into.new ++ left_from files.now (Some place.new) }
{
    match files.get(place.file) {
        Some(file) => copy_from(&file.bytes, &mut place.at, into),
        None => 0,
    }
}

impl Desk for MemoryDesk {
    ghost held = { λ d. Some d.files };

    ghost left = { λ d. Some d.left };

    ghost begun = { λ d. d.begun };

    ghost faults = { λ d. d.faults };

    ghost served = { λ d. d.served };

    fn begin(&mut self, name: &str) -> Result<bool, Failed>
        ensures held { self.new.files ≡ self.old.files }
        ensures begun { self.new.begun ≡ is_ok_true result }
        ensures found { IfOk result (λ found.
            found ≡ is_some (held_bytes name.now self.old.files)) }
        ensures start { is_ok_true result ≡ true
            → Some self.new.left ≡ held_bytes name.now self.old.files }
        ensures served { self.new.served ≡ after_begin result self.old.served }
        ensures cause { HasCause self.old.faults self.new.faults result }

        // Exactly the calls that are to fail do fail, and exactly these are faults.
        ensures fails { is_err result ≡ is_to_fail self.old.fails (one_more self.old.calls) }
        ensures faults { self.new.faults ≡ faults_after result self.old.faults }
        ensures calls { self.new.calls ≡ one_more self.old.calls }
        ensures same { self.new.fails ≡ self.old.fails }
    {
        self.place = None;
        self.served.begin();
        if self.calls.next_fails() {
            self.faults = self.faults.saturating_add(1);
            return Err(Failed);
        }
        match place_of(&self.files, name) {
            Some(file) => {
                self.place = Some(Place { file, at: 0 });
                Ok(true)
            }
            None => {
                self.served.miss();
                Ok(false)
            }
        }
    }

    fn read(&mut self, into: &mut [u8]) -> Result<usize, Failed>
        requires { self.old.begun ≡ true }
        ensures held { self.new.files ≡ self.old.files }
        ensures begun { self.new.begun ≡ is_ok result }
        ensures bound { ReadsAtMost result into.new }
        ensures bytes { IfOk result (λ n. self.old.left ≡ take n into.new ++ self.new.left) }
        ensures end { IfOk result (λ n. n ≡ 0 → 0 < length into.new → self.new.left ≡ []) }
        ensures served { self.new.served ≡ after_read result self.old.served }
        ensures cause { HasCause self.old.faults self.new.faults result }

        // It gives as many bytes as there is room for.
        ensures count { IfOk result (λ n. n ≡ min (length into.new) (length self.old.left)) }

        // Exactly the calls that are to fail do fail, and exactly these are faults.
        ensures fails { is_err result ≡ is_to_fail self.old.fails (one_more self.old.calls) }
        ensures faults { self.new.faults ≡ faults_after result self.old.faults }
        ensures calls { self.new.calls ≡ one_more self.old.calls }
        ensures same { self.new.fails ≡ self.old.fails }
    {
        let Some(mut place) = self.place else {
            unreachable!()
        };
        self.place = None;
        if self.calls.next_fails() {
            self.faults = self.faults.saturating_add(1);
            return Err(Failed);
        }
        let count = copy_next(&self.files, &mut place, into);
        self.place = Some(place);
        self.served.give(count);
        Ok(count)
    }
}

// Values stored under numbers.
ghost use Rattle.std.specs.Prelude.{◌≡◌, ◌==◌, ℕ, OnOk, OnErr, if◌then◌else◌, length, replicate};
ghost use Rattle.cover_checker.specs.Numbered.{under};

use irv_base::Memory;
use std::alloc::Global;
use std::collections::BTreeMap;

/// Values stored under numbers. Numbers below a limit use a table, and all others a sorted map, so no choice of numbers makes a value slow
/// to find.
#[derive(Drop)]
pub struct Numbered<T> {
    /// The values under the numbers below its length.
    pub near: Vec<T>,
    /// The values that were put under larger numbers.
    pub far: BTreeMap<u32, T>,
    /// The value under a number for which no value was put.
    pub none: T,
}

impl<T: Copy + Drop> Numbered<T> {
    /// Stores the same value under every number, with this table of it.
    pub fn all(alloc: Global, near: Vec<T>, none: T) -> Numbered<T>
        requires { near.items ≡ replicate (length near.items) none }
        ensures none { result.none ≡ none }
        ensures all { (number : ℕ) → under result number ≡ none }
    {
        Numbered {
            near,
            far: BTreeMap::new(alloc),
            none,
        }
    }

    /// Returns the value under this number.
    #[inline(always)]
    pub fn get(&self, number: u32) -> T
        ensures { result ≡ under self.now number }
    {
        match self.near.get(number as usize) {
            Some(value) => *value,
            None => match self.far.get(&number) {
                Some(value) => *value,
                None => self.none,
            },
        }
    }

    /// Puts the value under this number.
    pub fn put(&mut self, number: u32, value: T) -> Result<(), Memory>
        ensures none { self.new.none ≡ self.old.none }
        ensures put { OnOk result ((other : ℕ) → under self.new other
            ≡ (if number == other then value else under self.old other)) }
        ensures same { OnErr result ((other : ℕ) → under self.new other ≡ under self.old other) }
    {
        if let Some(place) = self.near.get_mut(number as usize) {
            *place = value;
            return Ok(());
        }
        self.far.insert(number, value)?;
        Ok(())
    }

    /// Removes the value that was put under this number.
    pub fn forget(&mut self, number: u32)
        ensures none { self.new.none ≡ self.old.none }
        ensures forgotten { (other : ℕ) → under self.new other
            ≡ (if number == other then self.old.none else under self.old other) }
    {
        if let Some(place) = self.near.get_mut(number as usize) {
            *place = self.none;
            return;
        }
        self.far.remove(&number);
    }
}

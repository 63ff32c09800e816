// The race as a value that takes one event at a time.
ghost use Rattle.std.specs.Prelude.{◌≡◌, ◌≤◌, ◌<◌, ◌^◌, IfOk, length, map, take};
ghost use Rattle.std.specs.Bool.{OnTrue, OnFalse};
ghost use Rattle.irv_base.specs.Tabulation.{least};
ghost use Rattle.race_core.specs.Race.{start, step, run, taken_count, closed_count};
ghost use Rattle.race_core.specs.Steps.{Steps};
ghost use Rattle.race_core.specs.State.{ready_entry, open_piece};

use crate::Event;
use irv_base::Memory;
use std::alloc::Global;
use std::marker::Model;

/// A race of workers over pieces: what each worker took, closed, saw and posted, the next piece, and the bound.
///
/// All the room that it will need is allocated when it is made: no event allocates memory.
#[derive(Drop)]
pub struct State {
    pieces: Vec<Piece>,
    closings: Vec<u32>,
    entries: Vec<Entry>,
    next: u32,
    bound: u32,
    closed: u32,
    lowest: u32,
}

/// A piece: its value, the worker that took it, if it is taken, and whether it is closed.
#[derive(Clone, Copy)]
struct Piece {
    value: u32,
    taker: u32,
    is_closed: bool,
}

/// What a race keeps of a worker, apart from its pieces.
#[derive(Clone, Copy)]
struct Entry {
    seen: u32,
    posted: u32,
    looks: u64,
    done: bool,
}

impl Model for State {
    ghost use Rattle.std.specs.Prelude.{take};
    ghost use Rattle.race_core.specs.Race.{Race};

    ghost Value = { Race };

    ghost use Rattle.race_core.specs.State.{shown_race, IsSound};

    ghost view = { λ s.
        shown_race s.pieces.items (take s.closed s.closings.items) s.entries.items s.next s.bound };

    ghost invariant = { λ s.
        IsSound s.pieces.items s.closings.items s.entries.items s.next s.closed s.lowest };
}

impl State {
    /// Starts a race over pieces of these values, with `first` as the bound.
    pub fn start(alloc: Global, values: &[u32], first: u32, workers: u32) -> Result<State, Memory>
        requires some { 1 ≤ length values.now }
        requires few { length values.now < 2 ^ 32 }
        requires first { least values.now ≤ first }
        ensures { IfOk result (λ s. s ≡ start values.now first workers) }
    {
        let pieces = open_pieces(alloc, values)?;
        let closings = vec![in alloc; 0; values.len()]?;
        let entry = Entry {
            seen: first,
            posted: first,
            looks: 0,
            done: false,
        };
        let entries = vec![in alloc; entry; workers as usize]?;
        Ok(State {
            pieces,
            closings,
            entries,
            next: 0,
            bound: first,
            closed: 0,
            lowest: least_of(values),
        })
    }

    /// Takes events in order, up to the first that is not taken, and returns the number taken.
    pub fn run(&mut self, events: &[Event]) -> usize
        ensures count { result ≡ taken_count self.old events.now }
        ensures race { run self.old (take result events.now) ≡ Some self.new }
    {
        for (i, event) in events.iter().enumerate() {
            if !self.step(*event) {
                return i;
            }
        }
        events.len()
    }

    /// Takes one event. Returns false if the event is not enabled, or if its worker's count of looks is at the greatest u64. The
    /// race is then unchanged.
    pub fn step(&mut self, event: Event) -> bool
        ensures taken { OnTrue result (step self.old event ≡ Some self.new) }
        ensures refused { OnFalse result ((step self.old event ≡ None) × (self.new ≡ self.old)) }
    {
        match event {
            Event::Take { worker } => self.take(worker),
            Event::Look { worker } => self.look(worker),
            Event::Post { worker, m } => self.post(worker, m),
            Event::Close { worker, piece } => self.close(worker, piece),
        }
    }

    fn take(&mut self, worker: u32) -> bool
        ensures { Steps self.old (Event.Take worker) result self.new }
    {
        let Some(entry) = ready(&self.entries, worker) else {
            return false;
        };
        if entry.done {
            return false;
        }
        let next = self.next as usize;
        if next < self.pieces.len() {
            self.pieces[next].taker = worker;
            self.next += 1;
        } else {
            self.entries[worker as usize] = Entry {
                done: true,
                ..entry
            };
        }
        true
    }

    fn look(&mut self, worker: u32) -> bool
        ensures { Steps self.old (Event.Look worker) result self.new }
    {
        let Some(entry) = ready(&self.entries, worker) else {
            return false;
        };
        self.entries[worker as usize] = Entry {
            seen: self.bound,
            looks: entry.looks + 1,
            ..entry
        };
        true
    }

    fn post(&mut self, worker: u32, m: u32) -> bool
        ensures { Steps self.old (Event.Post worker m) result self.new }
    {
        let Some(entry) = ready(&self.entries, worker) else {
            return false;
        };
        if m < self.lowest {
            return false;
        }
        self.bound = self.bound.min(m);
        self.entries[worker as usize] = Entry {
            seen: self.bound,
            posted: entry.posted.min(m),
            ..entry
        };
        true
    }

    fn close(&mut self, worker: u32, piece: u32) -> bool
        ensures { Steps self.old (Event.Close worker piece) result self.new }
    {
        let Some(entry) = ready(&self.entries, worker) else {
            return false;
        };
        if piece >= self.next {
            return false;
        }
        let p = self.pieces[piece as usize];
        if p.taker != worker || p.is_closed || p.value < self.bound {
            return false;
        }
        self.pieces[piece as usize] = Piece {
            is_closed: true,
            ..p
        };
        self.closings[self.closed as usize] = piece;
        self.closed += 1;
        self.entries[worker as usize] = Entry {
            seen: self.bound,
            looks: entry.looks + 1,
            ..entry
        };
        true
    }

    /// The bound.
    pub fn bound(&self) -> u32
        ensures { result ≡ self.now.bound }
    {
        self.bound
    }

    /// The piece that is taken next, or the number of pieces if all are taken.
    pub fn next(&self) -> u32
        ensures { result ≡ self.now.next }
    {
        self.next
    }

    /// The number of closed pieces.
    pub fn closed(&self) -> u32
        ensures { result ≡ closed_count self.now }
    {
        self.closed
    }
}

// The entry of a worker that may step.
fn ready(entries: &[Entry], worker: u32) -> Option<Entry>
    ensures { result ≡ ready_entry entries.now worker }
{
    let entry = entries.get(worker as usize).copied()?;
    if entry.looks == u64::MAX {
        return None;
    }
    Some(entry)
}

fn open_pieces(alloc: Global, values: &[u32]) -> Result<Vec<Piece>, Memory>
    ensures { IfOk result (λ pieces. pieces.items ≡ map open_piece values.now) }
{
    let pieces = values
        .iter()
        .map(|value| Piece {
            value: *value,
            taker: 0,
            is_closed: false,
        })
        .collect(alloc)?;
    Ok(pieces)
}

fn least_of(values: &[u32]) -> u32
    requires { 1 ≤ length values.now }
    ensures { result ≡ least values.now }
{
    let mut lowest = values[0];
    for value in values {
        lowest = lowest.min(*value);
    }
    lowest
}

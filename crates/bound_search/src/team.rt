// The workers of a race, each in a thread.
ghost use Rattle.std.specs.Prelude.{◌≡◌, ◌≤◌, ◌<◌, All, IfOk, length, map};
ghost use Rattle.shared_witness.specs.Race.{new_seat};
ghost use Rattle.bound_search.specs.Reached.{IsWorkerEnd};
ghost use Rattle.bound_search.specs.Team.{waiting, IsCut, WorkerWaits, WorkerRan, TeamRan};
ghost use Rattle.irv_base.specs.declared.limits.TheConstants.{MOST_WORKERS};

use crate::ends::WorkerEnd;
use crate::share::work;
use desk::Gate;
use irv_base::Memory;
use set_tallies::Counted;
use shared_witness::{Race, RaceSeat};
use std::alloc::Global;
use std::thread;
use std::thread::Threads;
use suffix_tree::Tail;

/// A worker: its seat, and its end. Before the worker's share, the end is an `Err`.
#[derive(Drop)]
pub(crate) struct Worker {
    /// Its seat in the race.
    pub seat: RaceSeat,
    /// Its result, or `Memory` if it couldn't continue or hasn't begun.
    pub end: Result<WorkerEnd, Memory>,
}

/// Creates a worker for each of the seats.
pub(crate) fn team_of(alloc: Global, seats: Vec<RaceSeat>) -> Result<Vec<Worker>, Memory>
    ensures { IfOk result (λ team. team.items ≡ map waiting seats.items) }
{
    let mut team = Vec::with_capacity(alloc, seats.len())?;
    for seat in seats {
        team.push(Worker {
            seat,
            end: Err(Memory),
        })?;
    }
    Ok(team)
}

// Runs the share of one worker, over its own tallies.
fn share<G: Gate + Sync>(
    alloc: Global,
    race: &Race,
    seat: &mut RaceSeat,
    worker: u32,
    counted: &Counted,
    tails: &[Tail],
    nodes: u32,
    gate: &G,
) -> Result<WorkerEnd, Memory>
    requires seat { seat.old ≡ new_seat race.now }
    requires cut { IsCut counted.now.bag tails.now race.now }
    ensures race { seat.new.race ≡ race.now.id }
    ensures end { IfOk result (IsWorkerEnd counted.now.bag race.now.terms.first nodes worker
        tails.now seat.new.view) }
{
    let mut tallies = counted.tallies_for_worker()?;
    work(alloc, race, seat, worker, tails, nodes, &mut tallies, gate)
}

/// Runs the workers.
pub(crate) fn run_team<R: Threads + Sync, G: Gate + Sync>(
    rt: &R,
    alloc: Global,
    race: &Race,
    team: &mut [Worker],
    counted: &Counted,
    tails: &[Tail],
    nodes: u32,
    gate: &G,
)
    requires each { length team.old ≡ race.now.terms.workers }
    requires workers { (1 ≤ race.now.terms.workers) × (race.now.terms.workers ≤ MOST_WORKERS) }
    requires cut { IsCut counted.now.bag tails.now race.now }
    requires waits { All (WorkerWaits race.now) team.old }
    ensures len { length team.new ≡ length team.old }
    ensures ran { TeamRan counted.now.bag nodes tails.now race.now team.new }
{
    thread::for_each_mut(
        rt,
        team,
        team.len(),
        &|i, worker: &mut Worker|
            requires { (i < race.now.terms.workers) × (race.now.terms.workers ≤ MOST_WORKERS)
                × WorkerWaits race.now worker.now × IsCut counted.now.bag tails.now race.now }
            ensures { WorkerRan counted.entry.now.bag nodes tails.entry.now race.entry.now i
                worker.exit.now }
        {
            worker.end = share(
                alloc,
                race,
                &mut worker.seat,
                i as u32,
                counted,
                tails,
                nodes,
                gate,
            )
        },
    );
}

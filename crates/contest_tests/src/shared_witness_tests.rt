// Tests of the race that threads share: seats in turn, and workers in threads, which take each piece once and post.
ghost use Rattle.std.specs.Prelude.{◌≡◌, ◌≤◌};
ghost use Rattle.irv_base.specs.declared.limits.TheConstants.{MOST_WORKERS};

use irv_base::Memory;
use shared_witness::{Race, RaceSeat, Seats};
use std::alloc::Global;
use std::sync::atomic::{AtomicU64, Ordering};
use std::test::Fail;
use std::thread;
use std::thread::Threads;

#[test]
fn two_seats_take_post_and_close(rt: HostRuntime) -> Result<(), Fail> {
    let Seats { race, mut seats } = Race::new(rt.alloc(), 2, 5, 2)?;
    assert_eq!(rt; seats.len(), 2);
    assert_eq!(rt; race.take(&mut seats[0]), 0);
    assert_eq!(rt; race.take(&mut seats[1]), 1);
    assert_eq!(rt; race.look(&mut seats[0]), 5);
    assert_eq!(rt; race.post(&mut seats[1], 3), 3);
    assert_eq!(rt; race.post(&mut seats[0], 4), 3);
    assert_eq!(rt; race.close_piece(&mut seats[0], 0), 3);
    assert_eq!(rt; race.close_piece(&mut seats[1], 1), 3);
    assert_eq!(rt; race.take(&mut seats[0]), 2);
    assert_eq!(rt; race.take(&mut seats[1]), 2);
    assert_eq!(rt; race.finish(seats), 3);
    Ok(())
}

#[test]
fn one_seat_ends_at_the_first_bound(rt: HostRuntime) -> Result<(), Fail> {
    let Seats { race, mut seats } = Race::new(rt.alloc(), 1, 0, 1)?;
    assert_eq!(rt; seats.len(), 1);
    assert_eq!(rt; race.take(&mut seats[0]), 0);
    assert_eq!(rt; race.close_piece(&mut seats[0], 0), 0);
    assert_eq!(rt; race.take(&mut seats[0]), 1);
    assert_eq!(rt; race.finish(seats), 0);
    Ok(())
}

const PIECES: u32 = 1000;

const FIRST: u32 = 5000;

/// The value that a worker posts when it takes a piece.
fn value_of(piece: u32) -> u32 {
    200 + piece % 613
}

/// Takes pieces until none is left, and posts a value for each.
fn take_all(race: &Race, seat: &mut RaceSeat, taken: &[AtomicU64])
    requires race { seat.old.race ≡ race.now.id }
    requires going { seat.old.view.ends ≡ 0 }
    requires pieces { race.now.terms.pieces ≡ PIECES }
    ensures race { seat.new.race ≡ race.now.id }
{
    for _turn in 0..=PIECES {
        let piece = race.take(seat);
        if piece == PIECES {
            return;
        }
        if let Some(times) = taken.get(piece as usize) {
            times.fetch_add(1, Ordering::SeqCst);
        }
        race.post(seat, value_of(piece));
    }
}

/// Runs a race of workers in threads, and returns the bound at its end and how often each piece was taken.
fn raced<R: Threads + Sync>(
    rt: &R,
    alloc: Global,
    workers: u32,
) -> Result<(u32, Vec<AtomicU64>), Memory>
    requires { (1 ≤ workers) × (workers ≤ MOST_WORKERS) }
{
    let mut taken = Vec::with_capacity(alloc, PIECES as usize)?;
    for _piece in 0..PIECES {
        taken.push(AtomicU64::new(0))?;
    }
    let Seats { race, mut seats } = Race::new(alloc, PIECES, FIRST, workers)?;
    let times = taken.as_slice();
    let shared = &race;
    thread::for_each_mut(
        rt,
        seats.as_mut_slice(),
        workers as usize,
        &|_, seat: &mut RaceSeat|
            requires { (seat.now.race ≡ shared.now.id) × (seat.now.view.ends ≡ 0)
                × (shared.now.terms.pieces ≡ PIECES) }
        { take_all(shared, seat, times) },
    );
    Ok((race.finish(seats), taken))
}

#[test]
fn four_workers_share_a_race(rt: HostRuntime) -> Result<(), Fail> {
    let (bound, taken) = raced(&rt, rt.alloc(), 4)?;
    assert_eq!(rt; bound, 200);
    for times in &taken {
        assert_eq!(rt; times.load(Ordering::SeqCst), 1);
    }
    Ok(())
}

#[test]
fn eight_workers_take_each_piece_once(rt: HostRuntime) -> Result<(), Fail> {
    for _run in 0..100 {
        let (bound, taken) = raced(&rt, rt.alloc(), 8)?;
        assert_eq!(rt; bound, 200);
        for times in &taken {
            assert_eq!(rt; times.load(Ordering::SeqCst), 1);
        }
    }
    Ok(())
}

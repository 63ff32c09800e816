// Tests of the race as a machine over events: runs of one worker and of two.

use race_core::{Event, State};
use std::test::Fail;

#[test]
fn two_workers_close_all_at_the_least_value(rt: HostRuntime) -> Result<(), Fail> {
    let mut race = State::start(rt.alloc(), &[2, 1], 2, 2)?;
    let events = [
        Event::Take { worker: 0 },
        Event::Take { worker: 1 },
        Event::Look { worker: 0 },
        Event::Post { worker: 1, m: 1 },
        Event::Close {
            worker: 0,
            piece: 0,
        },
        Event::Close {
            worker: 1,
            piece: 1,
        },
    ];
    assert_eq!(rt; race.run(&events), 6);
    assert_eq!(rt; race.bound(), 1);
    assert!(rt; !race.step(Event::Post { worker: 0, m: 0 }));
    assert!(rt;
        !race.step(Event::Close {
            worker: 0,
            piece: 0,
        })
    );
    assert_eq!(rt; race.closed(), 2);
    Ok(())
}

#[test]
fn a_worker_that_found_no_piece_is_done(rt: HostRuntime) -> Result<(), Fail> {
    let mut race = State::start(rt.alloc(), &[3], 3, 1)?;
    let take = Event::Take { worker: 0 };
    let close = Event::Close {
        worker: 0,
        piece: 0,
    };
    assert_eq!(rt; race.run(&[take, take, close, take]), 3);
    assert_eq!(rt; race.bound(), 3);
    assert_eq!(rt; race.next(), 1);
    assert_eq!(rt; race.closed(), 1);
    Ok(())
}

#[test]
fn a_piece_below_the_bound_stays_open(rt: HostRuntime) -> Result<(), Fail> {
    let mut race = State::start(rt.alloc(), &[2, 1], 2, 2)?;
    let events = [
        Event::Take { worker: 0 },
        Event::Take { worker: 1 },
        Event::Close {
            worker: 1,
            piece: 1,
        },
    ];
    assert_eq!(rt; race.run(&events), 2);
    assert_eq!(rt; race.closed(), 0);
    Ok(())
}

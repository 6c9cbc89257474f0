//! Measures of a manager, which is made of a counter and ledgers.

use anyhow::Result;
use event_manager::{
    BoxedPoller, EventManager, EventPoller, Job, Ledgers, MutEventSubscriber, NamedCounter,
    WithLedgers, with_ledgers,
};
use measures::bench::{Bench, Measured, expect};
use measures::fixed::Fixed;
use measures::host::Host;
use std::sync::Wait;
use std::time::Clock;
use vmm_sys::epoll::Epoll;
use vmm_sys::eventfd::EventFd;
use vmm_sys::poller::Poller;

/// A measure of a manager.
pub trait ManagerMeasure<R> {
    /// The type of its subscribers.
    type Subscriber: MutEventSubscriber + Drop;

    /// The type of its jobs.
    type Job: Job<Self::Subscriber>;

    /// The capacity of the manager.
    fn capacity(&self) -> usize;

    /// Does the work on a new manager. Refused where it counts another number than it has.
    fn take<N: NamedCounter, P: EventPoller>(
        &self,
        manager: &mut EventManager<Self::Subscriber, Self::Job, N, P>,
        bench: &Bench<R>,
    ) -> Result<Measured>;
}

/// A measure that is ready: all that it needs but a counter and ledgers.
struct Ready<'a, M, P, R> {
    measure: &'a M,
    poller: P,
    bench: &'a Bench<R>,
}

impl<M: ManagerMeasure<R>, P: EventPoller + Drop, R: Wait + Clock> WithLedgers
    for Ready<'_, M, P, R> {
    type Output = Result<Measured>;

    fn run<N: NamedCounter + Send + Sync>(
        self,
        counter: N,
        ledgers: Ledgers<N>,
    ) -> Result<Measured> {
        let Ready {
            measure,
            poller,
            bench,
        } = self;
        let mut manager = EventManager::<M::Subscriber, M::Job, N, P>::new_with_capacity(
            bench.alloc,
            poller,
            counter,
            measure.capacity(),
            ledgers,
        )?;
        measure.take(&mut manager, bench)
    }
}

/// Takes a measure on a manager over the poller, with this endpoint. Refused as the measure is.
pub fn take_over<M: ManagerMeasure<R>, P: EventPoller + Drop, R: Wait + Clock>(
    bench: &Bench<R>,
    measure: &M,
    poller: P,
    endpoint: EventFd,
) -> Result<Measured> {
    let ready = Ready {
        measure,
        poller,
        bench,
    };
    with_ledgers(endpoint, ready)
}

/// Takes a measure on a manager over the fixed poller, in a box or as it is. Its endpoint is the first descriptor of a table that
/// nobody polls, and below those that are reported. Refused as the measure is.
pub fn take_over_fixed<M: ManagerMeasure<R>, R: Host>(
    bench: &Bench<R>,
    measure: &M,
    fixed: Fixed,
) -> Result<Measured> {
    let endpoint = EventFd::new(&Epoll::new(bench.rt, bench.alloc)?, 0, &bench.rt)?;
    if bench.wanted.boxed {
        let boxed: Box<dyn Poller + Send> = Box::new(bench.alloc, fixed)?;
        take_over(bench, measure, BoxedPoller(boxed), endpoint)
    } else {
        take_over(bench, measure, fixed, endpoint)
    }
}

/// Runs the manager `rounds` times; each run must answer `count`.
pub fn run_rounds<S, J, N, P, R>(
    manager: &mut EventManager<S, J, N, P>,
    rounds: u32,
    count: u64,
    rt: &R,
) -> Result<()>
where
    S: MutEventSubscriber,
    J: Job<S>,
    N: NamedCounter,
    P: EventPoller,
    R: Wait + Clock,
{
    for _ in 0..rounds {
        expect(manager.run(rt)? as u64, count)?;
    }
    Ok(())
}

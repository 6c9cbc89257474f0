//! What a close of a manager drops, and when.

use crate::expecting::{expect, expect_ok, expect_same};
use event_manager::{
    EventManager, EventOps, EventPoller, Events, Job, Ledgers, MutEventSubscriber, NamedCounter,
    Registry, Result, SubscriberOps, WithLedgers, with_ledgers,
};
use fixtures::parts::{Parts, silent_parts};
use std::sync::Wait;
use std::sync::atomic::{AtomicU64, Ordering};
use std::time::Clock;
use vmm_sys::epoll::{ControlOperation, EpollEvent};
use vmm_sys::errno::Errno;

/// Notes as the how many-th of all it is dropped: a subscriber or a job that does nothing, or a poller that agrees to all and
/// reports nothing.
struct Noting<'a> {
    dropped: &'a AtomicU64,
    place: &'a AtomicU64,
}

impl Drop for Noting<'_> {
    fn drop(self) {
        let Noting { dropped, place } = self;
        let before = dropped.fetch_add(1, Ordering::SeqCst);
        place.store(before.saturating_add(1), Ordering::SeqCst);
    }
}

impl MutEventSubscriber for Noting<'_> {
    ghost use Rattle.event_manager.specs.Exchange.{AsksNothing};

    ghost begins = { λ v exchanges w. AsksNothing exchanges };

    ghost serves = { λ v event exchanges w. AsksNothing exchanges };

    fn process<P: EventPoller>(&mut self, _events: Events, _ops: &mut EventOps<P>) {}

    fn init<P: EventPoller>(&mut self, _ops: &mut EventOps<P>) {}
}

impl<'a> Job<Noting<'a>> for Noting<'a> {
    type Reply = ();

    ghost use Rattle.std.specs.Prelude.{◌≡◌, []};

    ghost may = { λ job steps reply. steps ≡ [] };

    fn call<P: EventPoller, R: Wait + Clock>(
        self,
        _registry: &mut Registry<Noting<'a>, P>,
        _rt: &R,
    ) {}
}

impl EventPoller for Noting<'_> {
    ghost controls = { λ v op fd event answer w. Unit {0} };

    ghost waits = { λ v ms capacity answer w. Unit {0} };

    fn control(
        &mut self,
        _op: ControlOperation,
        _fd: u32,
        _event: Events,
    ) -> std::result::Result<(), Errno> {
        Ok(())
    }

    fn poll(&mut self, _ms: i32, _buffer: &mut [EpollEvent]) -> std::result::Result<usize, Errno> {
        Ok(0)
    }
}

/// Makes a manager over the parts, which the guest joins, and closes it while the job waits.
struct Closing<'a, R> {
    rt: &'a R,
    parts: Parts<Noting<'a>, ()>,
    guest: Noting<'a>,
    job: Noting<'a>,
}

impl<'a, R: Wait + Clock> WithLedgers for Closing<'a, R> {
    type Output = Result<()>;

    fn run<N: NamedCounter + Send + Sync>(self, counter: N, ledgers: Ledgers<N>) -> Result<()> {
        let Closing {
            rt,
            parts,
            guest,
            job,
        } = self;
        let mut manager = EventManager::<Noting<'a>, Noting<'a>, N, _>::new(
            parts.alloc,
            parts.poller,
            counter,
            ledgers,
        )?;
        manager.add_subscriber(guest)?;
        manager.remote_endpoint()?.fire(job, rt)?;
        manager.close(rt);
        Ok(())
    }
}

#[test]
fn a_close_drops_the_jobs_and_then_subscribers_and_poller(rt: HostRuntime) {
    let dropped = AtomicU64::new(0);
    let places = [AtomicU64::new(0), AtomicU64::new(0), AtomicU64::new(0)];
    let [of_job, of_guest, of_poller] = &places;
    let noting = |place| Noting {
        dropped: &dropped,
        place,
    };
    let parts = silent_parts(rt, rt.alloc(), noting(of_poller));
    let (counter, parts) = expect_ok(&rt, parts).split();
    let closing = Closing {
        rt: &rt,
        parts,
        guest: noting(of_guest),
        job: noting(of_job),
    };
    expect_ok(&rt, with_ledgers(counter, closing));
    expect_same(&rt, &dropped.load(Ordering::SeqCst), &3);
    expect_same(&rt, &of_job.load(Ordering::SeqCst), &1);
    expect(&rt, of_guest.load(Ordering::SeqCst) > 1);
    expect(&rt, of_poller.load(Ordering::SeqCst) > 1);
}

//! A job that joins a subscriber.

use crate::expecting::{Looping, expect_noted, expect_ok, expect_same};
use event_manager::{
    AddSubscriber, EventPoller, EventSet, Events, Ledgers, NamedCounter, WithLedgers, with_ledgers,
};
use fixtures::making::make;
use fixtures::noting::{Noting, make_noting};
use fixtures::parts::{Parts, on_table};
use fixtures::work::{Notes, new_notes};
use vmm_sys::eventfd::EventFd;

/// A job adds a subscriber of this descriptor, which has an event at each run.
#[derive(Drop)]
struct Joining<'a, R, P> {
    rt: &'a R,
    parts: Parts<P, ()>,
    own: Events,
    notes: &'a Notes,
}

impl<R: Looping, P: EventPoller + Drop> WithLedgers for Joining<'_, R, P> {
    type Output = ();

    fn run<N: NamedCounter + Send + Sync>(self, counter: N, ledgers: Ledgers<N>) {
        let Joining {
            rt,
            parts,
            own,
            notes,
        } = self;
        let made = make::<Noting<R>, AddSubscriber<Noting<R>>, N, P>(parts, counter, ledgers);
        let mut manager = expect_ok(rt, made);
        let endpoint = expect_ok(rt, manager.remote_endpoint());
        expect_same(rt, &manager.run_with_timeout(0, rt), &Ok(0));
        let subscriber = expect_ok(rt, make_noting(rt, own, 1, notes));
        expect_ok(rt, endpoint.fire(AddSubscriber(subscriber), rt));
        expect_same(rt, &manager.run_with_timeout(-1, rt), &Ok(1));
        expect_noted(rt, notes, &[]);
        expect_same(rt, &manager.run_with_timeout(0, rt), &Ok(1));
        expect_noted(rt, notes, &[1]);
    }
}

#[test]
fn a_job_joins_a_subscriber(rt: HostRuntime) {
    let notes = expect_ok(&rt, new_notes(rt.alloc()));
    let parts = expect_ok(&rt, on_table(rt, rt.alloc(), 0));
    let event_fd = expect_ok(&rt, EventFd::new(&parts.poller, 0, &rt));
    let (counter, parts) = parts.split();
    let body = Joining {
        rt: &rt,
        parts,
        own: Events::new(&event_fd, EventSet::OUT),
        notes: &notes,
    };
    with_ledgers(counter, body);
}

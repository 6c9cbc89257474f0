//! Removals at an event, in the middle of a batch.

use crate::again;
use crate::descriptors::event_of;
use crate::expecting::{Looping, expect_ok, expect_same, mark};
use crate::making::over_script;
use crate::subscribers::{Manager, Watcher, ask, heard, join};
use event_manager::{
    EventPoller, EventSet, Events, NamedCounter, Request, Result, SubscriberId, SubscriberOps,
};
use fixtures::asking::wanted;
use fixtures::making::WithManager;
use std::alloc::Global;
use vmm_sys::epoll::{EpollEvent, RawFd};

/// The descriptor whose event brings the removals.
const FIRST: u16 = 1;

/// How many descriptors are removed: those behind the first.
const REMOVED: u16 = 200;

/// The descriptor of another subscriber.
const OTHER: RawFd = 70000;

/// The requests that remove the 200.
fn removals<R: Looping>(rt: &R, alloc: Global) -> Vec<Request> {
    let call = "Vec::with_capacity";
    let mut removals = again!(rt, call, Vec::with_capacity(alloc, 200));
    for k in 1..=REMOVED {
        let removal = Request::Remove(wanted(FIRST + k));
        expect_ok(rt, call, removals.push(removal));
    }
    removals
}

/// Takes in the subscriber that owns the first descriptor and the 200, and removes those at an event.
fn join_remover<N: NamedCounter, P: EventPoller, R: Looping>(
    rt: &R,
    alloc: Global,
    manager: &mut Manager<N, P>,
) -> SubscriberId {
    let id = join(rt, alloc, manager, wanted(FIRST));
    for k in 1..=REMOVED {
        ask(rt, manager, id, wanted(FIRST + k), None);
    }
    let watcher = expect_ok(rt, "subscriber_mut", manager.subscriber_mut(id));
    watcher.at_each_event = removals(rt, alloc);
    id
}

/// Batches in which the first event's subscriber removes the descriptors of the 200 that follow.
#[derive(Clone, Copy, Drop)]
struct Removing<'a, R> {
    rt: &'a R,
    alloc: Global,
}

impl<R: Looping> WithManager for Removing<'_, R> {
    type Subscriber = Watcher;

    type Output = ();

    fn run<N: NamedCounter, P: EventPoller>(self, manager: &mut Manager<N, P>) -> Result<()> {
        let Removing { rt, alloc } = self;
        let remover = join_remover(rt, alloc, manager);
        let other = join(rt, alloc, manager, Events::new_raw(OTHER, EventSet::IN));
        for batch in 1..=2 {
            mark(rt);
            let ran = manager.run_with_timeout(0, rt);
            mark(rt);
            expect_same(rt, "run", &ran, &Ok(202));
            let given = [heard(rt, manager, remover), heard(rt, manager, other)];
            expect_same(rt, "run", &given, &[batch, batch]);
        }
        Ok(())
    }
}

/// The report: the first descriptor, the 200, and the other subscriber's.
fn report_of_all<R: Looping>(rt: &R, alloc: Global) -> Vec<EpollEvent> {
    let call = "Vec::with_capacity";
    let mut entries = again!(rt, call, Vec::with_capacity(alloc, 202));
    for k in 0..=REMOVED {
        let event = event_of((FIRST + k) as RawFd);
        expect_ok(rt, call, entries.push(event));
    }
    expect_ok(rt, call, entries.push(event_of(OTHER)));
    entries
}

/// Of 202 events those of the 200 go to nobody, in the second batch too, where nobody owns them.
#[test]
fn descriptors_are_removed_in_a_batch(rt: HostRuntime) {
    let alloc = rt.alloc();
    let entries = report_of_all(&rt, alloc);
    let body = Removing { rt: &rt, alloc };
    over_script(&rt, alloc, &entries, body);
}

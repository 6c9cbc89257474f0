//! Calls of a manager that take no memory, each between two looks at the clock.

use crate::expecting::{Looping, expect_ok, expect_same, mark};
use crate::joins::open_counters;
use crate::making::{open_table, over_table};
use crate::subscribers::{Manager, Watcher, ask, heard, join};
use event_manager::{
    EventOps, EventPoller, Events, NamedCounter, Priority, Result, SubscriberId, SubscriberOps,
};
use fixtures::asking::wanted;
use fixtures::making::WithManager;
use std::alloc::Global;

/// Runs: one event is reported, and the subscriber has then been given `given`.
fn run_one<N: NamedCounter, P: EventPoller, R: Looping>(
    rt: &R,
    manager: &mut Manager<N, P>,
    id: SubscriberId,
    given: u64,
) {
    mark(rt);
    let ran = manager.run(rt);
    mark(rt);
    expect_same(rt, "run", &(ran, heard(rt, manager, id)), &(Ok(1), given));
}

/// Modifies and removes the descriptor.
fn change<P: EventPoller, R: Looping>(rt: &R, ops: &mut EventOps<P>, own: Events) {
    mark(rt);
    let modified = ops.modify(own);
    mark(rt);
    expect_same(rt, "modify", &modified, &Ok(()));
    mark(rt);
    let removed = ops.remove(own);
    mark(rt);
    expect_same(rt, "remove", &removed, &Ok(()));
}

/// Lends the subscriber, and its requests, of which two are made.
fn lend<N: NamedCounter, P: EventPoller, R: Looping>(
    rt: &R,
    manager: &mut Manager<N, P>,
    id: SubscriberId,
    own: Events,
) {
    mark(rt);
    let is_lent = manager.subscriber_mut(id).is_ok();
    mark(rt);
    expect_same(rt, "subscriber_mut", &is_lent, &true);
    mark(rt);
    let lent = manager.event_ops(id);
    mark(rt);
    change(rt, expect_ok(rt, "event_ops", lent), own);
}

/// Lets the subscriber leave, and another join in its place.
fn leave_and_join<N: NamedCounter, P: EventPoller, R: Looping>(
    rt: &R,
    alloc: Global,
    manager: &mut Manager<N, P>,
    id: SubscriberId,
    own: Events,
) {
    mark(rt);
    let left = manager.remove_subscriber(id);
    mark(rt);
    expect_ok(rt, "remove_subscriber", left);
    let watcher = Watcher::new(own, alloc);
    mark(rt);
    let joined = manager.add_subscriber(watcher);
    mark(rt);
    let id = expect_ok(rt, "add_subscriber", joined);
    expect_same(rt, "add_subscriber", &id.number(), &3);
}

/// The calls over a table.
#[derive(Clone, Copy, Drop)]
struct Calling<'a, R> {
    rt: &'a R,
    alloc: Global,
}

impl<R: Looping> WithManager for Calling<'_, R> {
    type Subscriber = Watcher;

    type Output = ();

    fn run<N: NamedCounter, P: EventPoller>(self, manager: &mut Manager<N, P>) -> Result<()> {
        let Calling { rt, alloc } = self;
        let own = wanted(1);
        let first = join(rt, alloc, manager, own);
        run_one(rt, manager, first, 1);
        lend(rt, manager, first, own);
        ask(rt, manager, first, own, Some(Priority::High));
        run_one(rt, manager, first, 2);
        manager.event_ops(first)?.remove(own)?;
        let second = join(rt, alloc, manager, own);
        expect_same(rt, "add_subscriber", &second.number(), &2);
        leave_and_join(rt, alloc, manager, second, own);
        Ok(())
    }
}

#[test]
fn a_manager_makes_calls_without_memory(rt: HostRuntime) {
    let alloc = rt.alloc();
    let mut on_table = open_table(&rt, alloc);
    open_counters(&rt, &mut on_table, 1, 1);
    let body = Calling { rt: &rt, alloc };
    over_table(&rt, alloc, &mut on_table, body);
}

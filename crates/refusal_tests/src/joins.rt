//! Subscribers that join, and their requests.

use crate::again;
use crate::descriptors::open_counter;
use crate::expecting::{Host, Looping, expect_ok, expect_same};
use crate::making::{OnTable, open_table, over_table};
use crate::subscribers::{Manager, Watcher, ask, heard, join};
use event_manager::{EventPoller, NamedCounter, Priority, Result, SubscriberId, SubscriberOps};
use fixtures::asking::wanted;
use fixtures::making::WithManager;
use std::alloc::Global;

/// How many subscribers join, of the descriptors from 1 on; how many descriptors behind those the first one then asks for, and how
/// many of those behind, which aren't ready, at a priority.
const COUNT: u16 = 20;

/// Joins, requests and a delivery over a table.
#[derive(Clone, Copy, Drop)]
struct Joining<'a, R> {
    rt: &'a R,
    alloc: Global,
}

/// Takes the subscribers in, whose ids are 1 to 20: the first and the last.
fn join_all<N: NamedCounter, P: EventPoller, R: Looping>(
    rt: &R,
    alloc: Global,
    manager: &mut Manager<N, P>,
) -> [SubscriberId; 2] {
    let first = manager.next_id();
    let mut last = first;
    for number in 1..=COUNT {
        last = join(rt, alloc, manager, wanted(number));
        expect_same(rt, "add_subscriber", &last.number(), &(number as u64));
    }
    [first, last]
}

impl<R: Looping> WithManager for Joining<'_, R> {
    type Subscriber = Watcher;

    type Output = ();

    fn run<N: NamedCounter, P: EventPoller>(self, manager: &mut Manager<N, P>) -> Result<()> {
        let rt = self.rt;
        let [first, last] = join_all(rt, self.alloc, manager);
        let ids = again!(rt, "SubscriberOps::ids", manager.ids(self.alloc));
        expect_same(rt, "SubscriberOps::ids", &ids.last(), &Some(&last));
        for more in 1..=COUNT {
            ask(rt, manager, first, wanted(COUNT + more), None);
        }
        for more in 1..=COUNT {
            let silent = wanted(2 * COUNT + more);
            ask(rt, manager, first, silent, Some(Priority::High));
        }
        expect_same(rt, "run", &manager.run_with_timeout(0, rt), &Ok(40));
        let given = [heard(rt, manager, first), heard(rt, manager, last)];
        expect_same(rt, "run", &given, &[21, 1]);
        Ok(())
    }
}

/// Opens `count` counters, of the descriptors from 1 on: the first `ready` are ready.
pub fn open_counters<R: Host>(rt: &R, on_table: &mut OnTable<R>, count: u16, ready: u16) {
    for fd in 1..=count {
        let counter = open_counter(rt, &mut on_table.epoll, fd as i32);
        let value = u64::from(fd <= ready);
        expect_ok(rt, "EventFd::write", counter.write(value, rt));
    }
}

/// A request that was refused left the poller as it was: else the table would refuse the second one.
#[test]
fn subscribers_join_and_ask(rt: HostRuntime) {
    let alloc = rt.alloc();
    let mut on_table = open_table(&rt, alloc);
    open_counters(&rt, &mut on_table, 60, 40);
    let body = Joining { rt: &rt, alloc };
    over_table(&rt, alloc, &mut on_table, body);
}

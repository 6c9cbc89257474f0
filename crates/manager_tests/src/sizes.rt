//! Many descriptors, subscribers, requests and events: no call is refused for want of memory.

use crate::expecting::{Looping, expect_ok, expect_same};
use event_manager::Request;
use fixtures::asking::{Asking, adds, wanted};
use fixtures::counting::counting_on;
use fixtures::parts::silent_parts;
use fixtures::runs::{run_alone, run_over};
use fixtures::scripts::script_of;
use std::alloc::Global;

/// Expects that these requests are agreed to, in `init` and at an event of descriptor 400.
fn expect_agreed<R: Looping + Send>(rt: R, alloc: Global, first: &[Request], later: &[Request]) {
    let asking = expect_ok(&rt, Asking::new(alloc, first, later));
    let script = expect_ok(&rt, script_of(alloc, &[400]));
    let parts = expect_ok(&rt, silent_parts(rt, alloc, script));
    let left = expect_ok(&rt, run_alone(&rt, parts, asking, &[Ok(1)]));
    expect_same(&rt, &left.first_refusal, &None);
    expect_same(&rt, &left.later_refusal, &None);
    expect_same(&rt, &left.seen.is_empty(), &later.is_empty());
}

#[test]
fn three_hundred_descriptors_of_one_subscriber(rt: HostRuntime) {
    let first = expect_ok(&rt, adds(rt.alloc(), 1, 300));
    expect_agreed(rt, rt.alloc(), &first, &[]);
}

#[test]
fn three_hundred_requests_at_one_event(rt: HostRuntime) {
    let later = expect_ok(&rt, adds(rt.alloc(), 1, 300));
    expect_agreed(rt, rt.alloc(), &[Request::Add(wanted(400))], &later);
}

#[test]
fn three_hundred_subscribers(rt: HostRuntime) {
    let (mut fds, mut subscribers) = (Vec::new(rt.alloc()), Vec::new(rt.alloc()));
    for fd in 1..301u16 {
        expect_ok(&rt, fds.push(u64::from(fd)));
        expect_ok(&rt, subscribers.push(counting_on(fd)));
    }
    let script = expect_ok(&rt, script_of(rt.alloc(), &fds));
    let parts = expect_ok(&rt, silent_parts(rt, rt.alloc(), script));
    // The rest of the report is more than the capacity has room for.
    let runs = [Ok(256), Ok(44)];
    let left = expect_ok(&rt, run_over(&rt, parts, subscribers, &runs));
    expect_same(&rt, &left.len(), &300);
    for counting in left {
        expect_same(&rt, &counting.count, &1);
    }
}

#[test]
fn five_thousand_events_of_one_batch(rt: HostRuntime) {
    let fds = expect_ok(&rt, vec![in rt.alloc(); 3; 5000]);
    let script = expect_ok(&rt, script_of(rt.alloc(), &fds));
    let mut parts = expect_ok(&rt, silent_parts(rt, rt.alloc(), script));
    parts.capacity = Some(100000);
    let runs = [Ok(5000)];
    let left = expect_ok(&rt, run_alone(&rt, parts, counting_on(3), &runs));
    expect_same(&rt, &left.count, &5000);
}

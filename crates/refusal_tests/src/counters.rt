//! The counting subscriber whose counts are handed out as a list.

use crate::again;
use crate::descriptors::{open_counter, open_epoll};
use crate::expecting::expect_same;
use event_manager::utilities::subscribers::CounterSubscriberWithData;

#[test]
fn counts_are_handed_out(rt: HostRuntime) {
    let mut epoll = open_epoll(&rt, rt.alloc());
    let counters = [
        open_counter(&rt, &mut epoll, 0),
        open_counter(&rt, &mut epoll, 1),
        open_counter(&rt, &mut epoll, 2),
    ];
    let subscriber = CounterSubscriberWithData::new(rt.alloc(), counters, 0);
    let call = "get_all_counter_values";
    let counts = again!(&rt, call, subscriber.get_all_counter_values());
    expect_same(&rt, call, &counts.as_slice(), &[0, 0, 0].as_slice());
}

//! Counters of a table, and steps of a manager.

use crate::expecting::{Host, Looping, expect_ok, expect_same};
use event_manager::utilities::subscribers::CounterSubscriberWithData;
use event_manager::{
    Call, EventManager, EventPoller, MutEventSubscriber, NamedCounter, NoJob, Reply, Result, drive,
};
use fixtures::making::{WithManager, with_manager};
use fixtures::parts::OnTable;
use std::alloc::Global;
use std::process::Abort;
use vmm_sys::epoll::Epoll;
use vmm_sys::eventfd::EventFd;

/// A counter of value 0 in the table.
pub fn counter_of<R: Host>(rt: &R, epoll: &Epoll<R>) -> EventFd {
    expect_ok(rt, EventFd::new(epoll, 0, rt))
}

/// Three counters of value 0 in the table.
pub fn three_counters_of<R: Host>(rt: &R, epoll: &Epoll<R>) -> [EventFd; 3] {
    [
        counter_of(rt, epoll),
        counter_of(rt, epoll),
        counter_of(rt, epoll),
    ]
}

/// Expects these values of the three counters.
pub fn expect_values<R: Abort>(rt: &R, subscriber: &CounterSubscriberWithData, expected: [u64; 3]) {
    let values = expect_ok(rt, subscriber.get_all_counter_values());
    expect_same(rt, &values.as_slice(), &expected.as_slice());
}

/// What is done with a manager and its table.
#[derive(Drop)]
pub enum Step<'a, S> {
    Make(Call<S>),
    /// Writes 1 to a counter.
    Write(&'a EventFd),
    /// Reads a counter.
    Read(&'a EventFd),
}

/// Steps of a manager.
#[derive(Drop)]
struct Steps<'a, R, S> {
    rt: &'a R,
    alloc: Global,
    steps: Vec<Step<'a, S>>,
}

impl<R: Looping, S: MutEventSubscriber + Drop> WithManager for Steps<'_, R, S> {
    type Subscriber = S;

    type Output = Vec<Reply<S>>;

    fn run<N: NamedCounter, P: EventPoller>(
        self,
        manager: &mut EventManager<S, NoJob, N, P>,
    ) -> Result<Vec<Reply<S>>> {
        let Steps { rt, alloc, steps } = self;
        let mut replies = Vec::new(alloc);
        for step in steps {
            match step {
                Step::Make(call) => {
                    let mut calls = Vec::new(alloc);
                    expect_ok(rt, calls.push(call));
                    expect_ok(rt, drive(manager, calls, &mut replies, rt));
                    // Else a run without a limit may have nobody to end it.
                    let is_refused = matches!(replies.last(), Some(Reply::Added(Err(_))));
                    expect_same(rt, &is_refused, &false);
                }
                Step::Write(counter) => expect_ok(rt, counter.write(1, rt)),
                Step::Read(counter) => {
                    expect_ok(rt, counter.read(rt));
                }
            }
        }
        Ok(replies)
    }
}

/// What a new manager of these parts replies in these steps.
pub fn replies_in<S: MutEventSubscriber + Drop, R: Host>(
    rt: &R,
    parts: OnTable<R>,
    steps: Vec<Step<'_, S>>,
) -> Vec<Reply<S>> {
    let alloc = parts.alloc;
    expect_ok(rt, with_manager(parts, Steps { rt, alloc, steps }))
}

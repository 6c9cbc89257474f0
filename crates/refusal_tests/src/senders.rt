//! Jobs that threads call beside a loop, all of it by one call.

use crate::again;
use crate::descriptors::is_unregistered;
use crate::expecting::{Host, Looping, expect_same};
use crate::jobs::Endpoint;
use crate::making::{OnTable, open_table, parts_of};
use event_manager::{
    Ended, EventPoller, JobSender, LoopWithSenders, NamedCounter, Result, TrackedManager,
    with_senders,
};
use fixtures::parts::{Idle, Parts};
use fixtures::work::Work;
use std::alloc::Global;
use std::sync::atomic::{AtomicU64, Ordering};
use std::thread::Threads;
use vmm_sys::epoll::{ControlOperation, Epoll, EpollEvent, EventSet};
use vmm_sys::poller::Poller;

/// How many jobs each thread calls.
const CALLS: u64 = 3;

/// The loop's side, which has no subscriber, and `count` callers.
#[derive(Drop)]
struct Callers<'a> {
    count: u64,
    /// How many have begun.
    begun: &'a AtomicU64,
}

/// Calls jobs, whose numbers are those from the first up.
#[derive(Clone, Copy, Drop)]
struct Caller<'a> {
    first: u64,
    /// Whether nobody else calls, so that a refused call leaves no job behind.
    is_alone: bool,
    /// How many have begun.
    begun: &'a AtomicU64,
}

impl<'a, R: Looping> LoopWithSenders<Idle, Work, Caller<'a>, R> for Callers<'a> {
    fn begin<N: NamedCounter, P: EventPoller>(
        &mut self,
        _rt: &R,
        alloc: Global,
        _manager: &mut TrackedManager<Idle, Work, N, P>,
    ) -> Result<Vec<Caller<'a>>> {
        let mut callers = Vec::new(alloc);
        for k in 0..self.count {
            callers.push(Caller {
                first: k.saturating_mul(CALLS),
                is_alone: self.count == 1,
                begun: self.begun,
            })?;
        }
        Ok(callers)
    }
}

impl<R: Looping> JobSender<Idle, Work, u64, R> for Caller<'_> {
    /// Gives how many replies there were, each of them its job's number.
    fn send<N: NamedCounter>(self, endpoint: &Endpoint<N>, rt: &R) -> u64 {
        self.begun.fetch_add(1, Ordering::SeqCst);
        for k in 0..CALLS {
            let number = self.first.saturating_add(k);
            let reply = again!(
                rt,
                "call_blocking",
                endpoint.call_blocking(Work::Own(number), rt),
                !self.is_alone || endpoint.pending() == Some(0)
            );
            expect_same(rt, "call_blocking", &reply, &number);
        }
        CALLS
    }
}

/// Makes the loop over the table and runs it beside its callers, once.
fn run_once<R: Host + Threads + Sync>(
    rt: &R,
    alloc: Global,
    on_table: &OnTable<R>,
    count: u64,
    begun: &AtomicU64,
) -> Result<Ended<Idle, u64, Epoll<R>>> {
    let Parts {
        poller,
        counter,
        ..
    } = parts_of(rt, alloc, on_table);
    with_senders(rt, alloc, poller, counter, &mut Callers { count, begun })
}

/// Takes the interest in the endpoint out, which the manager has registered where it was made: whether the endpoint is then
/// unregistered, and no caller has begun.
fn has_begun_nothing<R: Host>(epoll: &mut Epoll<R>, begun: &AtomicU64) -> bool {
    let nothing = EpollEvent::new(EventSet::empty(), 0);
    let _taken_out = epoll.ctl(ControlOperation::Delete, 0, nothing);
    is_unregistered(epoll, 0) && begun.load(Ordering::SeqCst) == 0
}

/// Runs a loop over a table beside `callers` threads, which call jobs of it. Where the loop is refused, as for want of one of the
/// threads, none has begun; and at most the endpoint is left in the table.
fn run_beside<R: Host + Threads + Sync>(rt: &R, alloc: Global, callers: u64) {
    let mut on_table = open_table(rt, alloc);
    let begun = AtomicU64::new(0);
    let ended = again!(
        rt,
        "with_senders",
        run_once(rt, alloc, &on_table, callers, &begun),
        has_begun_nothing(&mut on_table.epoll, &begun)
    );
    expect_same(rt, "with_senders", &ended.ran, &Ok(()));
    let mut replies = 0u64;
    for count in ended.sent.iter() {
        replies = replies.saturating_add(*count);
    }
    let counts = [replies, ended.issued, ended.taken];
    expect_same(rt, "with_senders", &counts, &[callers.saturating_mul(3); 3]);
}

#[test]
fn a_loop_runs_beside_one_caller(rt: HostRuntime) {
    run_beside(&rt, rt.alloc(), 1);
}

#[test]
fn a_loop_runs_beside_two_callers(rt: HostRuntime) {
    run_beside(&rt, rt.alloc(), 2);
}

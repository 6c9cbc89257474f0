//! A call beside a close: it is answered, whichever comes first.

use crate::expecting::{Host, Looping, expect_ok, expect_same};
use crate::fixture::{Endpoint, Progress, Task, look_on, spin};
use event_manager::{
    Error, EventPoller, JobSender, LoopWithSenders, NamedCounter, Result, Senders, TrackedManager,
    with_senders,
};
use fixtures::parts::{Idle, Parts, on_table};
use std::alloc::Global;
use std::sync::Arc;
use std::sync::atomic::{AtomicBool, Ordering};
use std::thread;
use test_rounds::Rounds;

const ROUNDS: u64 = 10_000;

/// For how many turns a close waits at most once the caller has started.
const MOST_TURNS: u64 = 256;

/// How often a close looks at most whether the caller has started.
const LOOKS: u32 = 1_000_000;

/// Says that it starts, and calls.
#[derive(Drop)]
struct Caller<'a> {
    job: Task,
    started: &'a AtomicBool,
}

impl<R: Looping> JobSender<Idle, Task, Result<u64>, R> for Caller<'_> {
    fn send<N: NamedCounter>(self, endpoint: &Endpoint<N>, rt: &R) -> Result<u64> {
        self.started.store(true, Ordering::SeqCst);
        endpoint.call_blocking(self.job, rt)
    }
}

/// A loop for which a job without a caller waits, and that ends `turns` turns after the caller has started.
#[derive(Drop)]
struct Closing<'a> {
    progress: &'a Arc<Progress, Global>,
    started: &'a AtomicBool,
    turns: u64,
}

impl<'a, R: Looping> LoopWithSenders<Idle, Task, Caller<'a>, R> for Closing<'a> {
    fn begin<N: NamedCounter, P: EventPoller>(
        &mut self,
        rt: &R,
        alloc: Global,
        manager: &mut TrackedManager<Idle, Task, N, P>,
    ) -> Result<Vec<Caller<'a>>> {
        let first = Task::count(rt, self.progress);
        manager.remote_endpoint()?.fire(first, rt)?;
        let caller = Caller {
            job: Task::count(rt, self.progress),
            started: self.started,
        };
        Ok(Vec::from_array(alloc, [caller])?)
    }

    fn run<N: NamedCounter, P: EventPoller>(
        &mut self,
        _rt: &R,
        _manager: &mut TrackedManager<Idle, Task, N, P>,
        _senders: &Senders,
    ) -> Result<()> {
        for _look in 0..LOOKS {
            if self.started.load(Ordering::SeqCst) {
                break;
            }
        }
        spin(self.turns);
        Ok(())
    }
}

/// A caller beside a close of a new manager, for which a job without a caller waits.
fn close_beside_call<R: Host>(rt: &R, alloc: Global, turns: u64) {
    let progress = expect_ok(rt, Arc::new(alloc, Progress::new()));
    let started = AtomicBool::new(false);
    let mut body = Closing {
        progress: &progress,
        started: &started,
        turns,
    };
    let Parts {
        poller,
        counter,
        ..
    } = expect_ok(rt, on_table(*rt, alloc, 0));
    let ended = expect_ok(rt, with_senders(rt, alloc, poller, counter, &mut body));
    expect_same(rt, &ended.sent.len(), &1);
    for reply in ended.sent {
        let is_refused = reply == Err(Error::ChannelRecv) || reply == Err(Error::ChannelSend);
        assert!(rt; is_refused, "{reply:?}");
    }
    expect_same(rt, &Arc::strong_count(&progress), &1);
}

#[test]
fn a_call_beside_a_close_is_answered(rt: HostRuntime) {
    let rounds = Rounds::new();
    let alloc = rt.alloc();
    thread::join(
        &rt,
        || look_on(&rt, &rounds),
        || {
            for round in 0..ROUNDS {
                if rounds.has_time() {
                    close_beside_call(&rt, alloc, round % MOST_TURNS);
                    rounds.count();
                }
            }
            rounds.end();
        },
    );
}

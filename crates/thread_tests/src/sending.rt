//! One sender, and a loop that waits without a limit: no wake-up between the two is lost.

use crate::expecting::{Host, Looping, expect_ok, expect_same};
use crate::fixture::{Endpoint, Progress, Task, look_on};
use event_manager::{
    EventPoller, JobSender, LoopWithSenders, NamedCounter, Result, Senders, TrackedManager,
    with_senders,
};
use fixtures::parts::{Idle, OnTable, Parts, on_table};
use std::alloc::Global;
use std::sync::atomic::Ordering;
use std::sync::{Arc, Wait};
use std::thread;
use std::time::Clock;
use test_rounds::Rounds;
use vmm_sys::epoll::{Epoll, EpollEvent, EventSet};
use vmm_sys::poller::Poller;

const ROUNDS: u64 = 10_000;

/// For how many turns a first job holds up the loop at most, so that the sends behind it come at each point of the
/// loop's next turn.
const MOST_TURNS: u64 = 256;

/// How often a sender looks at most whether the loop is where it is to be.
const LOOKS: u32 = 100_000;

type Shared = Arc<Progress, Global>;

/// Sends a job, and goes on once it runs; while it does, sends another one, and calls for the reply of a third.
fn call_beside_job<N: NamedCounter, R: Looping>(
    rt: &R,
    endpoint: &Endpoint<N>,
    progress: &Shared,
    round: u64,
) {
    let (second, third) = (Task::count(rt, progress), Task::count(rt, progress));
    let first = Task::Begin(expect_ok(rt, progress.clone()), round % MOST_TURNS);
    expect_ok(rt, endpoint.fire(first, rt));
    for _look in 0..LOOKS {
        if progress.begun.load(Ordering::SeqCst) > round {
            break;
        }
    }
    expect_ok(rt, endpoint.fire(second, rt));
    expect_ok(rt, endpoint.call_blocking(third, rt));
}

/// Sends a job, and another one as soon as the first is taken: by `fire`, or by `fire_after`. Goes on once both were run.
fn fire_behind_take<N: NamedCounter, R: Looping>(
    rt: &R,
    endpoint: &Endpoint<N>,
    progress: &Shared,
    is_after: bool,
) {
    let (first, second) = (Task::count(rt, progress), Task::count(rt, progress));
    let shown = expect_ok(rt, endpoint.fire(first, rt));
    for _look in 0..LOOKS {
        if endpoint.pending() == Some(0) {
            break;
        }
    }
    let sent = match is_after {
        true => endpoint.fire_after(&shown, second, rt),
        false => endpoint.fire(second, rt),
    };
    expect_ok(rt, sent);
    for _look in rt.forever() {
        if Arc::strong_count(progress) == 1 {
            break;
        }
    }
}

/// Sends two or three jobs, the last while the loop is on its way round.
fn send_round<N: NamedCounter, R: Looping>(
    rt: &R,
    endpoint: &Endpoint<N>,
    progress: &Shared,
    round: u64,
) {
    if round % 2 == 0 {
        call_beside_job(rt, endpoint, progress, round / 2)
    } else {
        fire_behind_take(rt, endpoint, progress, round % 4 == 3)
    }
}

/// Sends in each round, and then lets the loop end.
fn send_all<N: NamedCounter, R: Looping>(
    rt: &R,
    endpoint: &Endpoint<N>,
    progress: &Shared,
    rounds: &Rounds,
) {
    for round in 0..ROUNDS {
        if !rounds.has_time() {
            break;
        }
        send_round(rt, endpoint, progress, round);
        rounds.count();
    }
    progress.all_sent.store(true, Ordering::SeqCst);
    expect_same(rt, &endpoint.kick(rt), &Ok(()));
}

/// Runs without a limit until all was sent. What it then leaves to be read ends the wait beside it.
fn run_all<N: NamedCounter, P: EventPoller, R: Looping>(
    rt: &R,
    manager: &mut TrackedManager<Idle, Task, N, P>,
    endpoint: &Endpoint<N>,
    progress: &Progress,
) {
    for _turn in rt.forever() {
        expect_same(rt, &manager.run_with_timeout(-1, rt), &Ok(1));
        if progress.all_sent.load(Ordering::SeqCst) {
            break;
        }
    }
    expect_same(rt, &endpoint.kick(rt), &Ok(()));
}

/// Waits on the loop's table until all was sent, again as long as something is there: so the loop mostly finds somebody at
/// the table's lock, and stays there for a while.
fn wait_beside<R: Wait + Clock + Clone + Send + Drop>(
    rt: &R,
    epoll: Epoll<R>,
    progress: &Progress,
) {
    let mut epoll = epoll;
    let mut buffer = [EpollEvent::new(EventSet::empty(), 0)];
    for _turn in rt.forever() {
        let _ = epoll.wait(-1, &mut buffer);
        if progress.all_sent.load(Ordering::SeqCst) {
            break;
        }
    }
}

/// A loop, and its sender.
#[derive(Clone, Copy)]
struct Sending<'a> {
    progress: &'a Shared,
    rounds: &'a Rounds,
}

impl<R: Looping> JobSender<Idle, Task, (), R> for Sending<'_> {
    fn send<N: NamedCounter>(self, endpoint: &Endpoint<N>, rt: &R) {
        send_all(rt, endpoint, self.progress, self.rounds);
    }
}

impl<'a, R: Looping> LoopWithSenders<Idle, Task, Sending<'a>, R> for Sending<'a> {
    fn begin<N: NamedCounter, P: EventPoller>(
        &mut self,
        _rt: &R,
        alloc: Global,
        _manager: &mut TrackedManager<Idle, Task, N, P>,
    ) -> Result<Vec<Sending<'a>>> {
        Ok(Vec::from_array(alloc, [*self])?)
    }

    fn run<N: NamedCounter, P: EventPoller>(
        &mut self,
        rt: &R,
        manager: &mut TrackedManager<Idle, Task, N, P>,
        _senders: &Senders,
    ) -> Result<()> {
        let endpoint = manager.remote_endpoint()?;
        run_all(rt, manager, &endpoint, self.progress);
        Ok(())
    }
}

/// The rounds of a loop over these parts.
fn send_rounds<R: Host>(rt: &R, parts: OnTable<R>, progress: &Shared, rounds: &Rounds) {
    let Parts {
        alloc,
        poller,
        counter,
        ..
    } = parts;
    let mut body = Sending { progress, rounds };
    let ended = expect_ok(rt, with_senders(rt, alloc, poller, counter, &mut body));
    expect_same(rt, &ended.ran, &Ok(()));
    rounds.end();
}

/// The rounds of a new manager, and who waits beside it.
fn send_beside_wait<R: Host>(rt: &R, alloc: Global, rounds: &Rounds) {
    let parts = expect_ok(rt, on_table(*rt, alloc, 0));
    let epoll = expect_ok(rt, parts.poller.try_clone());
    let progress = expect_ok(rt, Arc::new(alloc, Progress::new()));
    thread::join(
        rt,
        || send_rounds(rt, parts, &progress, rounds),
        || wait_beside(rt, epoll, &progress),
    );
}

#[test]
fn no_wake_up_of_the_loop_is_lost(rt: HostRuntime) {
    let rounds = Rounds::new();
    let alloc = rt.alloc();
    thread::join(
        &rt,
        || look_on(&rt, &rounds),
        || send_beside_wait(&rt, alloc, &rounds),
    );
}

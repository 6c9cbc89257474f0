//! A loop's thread and a sender's, at a manager and an endpoint of it: what is run, what is refused, and what the sender is
//! answered.

use crate::ending::beside_senders;
use crate::expecting::{Host, Looping, expect_noted, expect_ok, expect_same};
use crate::own_counter::{HIGHEST, OwnCounter, OwnPoller, own_parts};
use event_manager::{
    Counter, Error, EventPoller, EventSet, Events, JobSender, LoopWithSenders, NamedCounter,
    RemoteEndpoint, Request, Result, Senders, TrackedManager,
};
use fixtures::asking::Asking;
use fixtures::making::no_memory;
use fixtures::parts::{Parts, on_table, silent_parts};
use fixtures::scripts::push_words;
use fixtures::waits::{wait_until_ended, wait_until_pending};
use fixtures::work::{Gate, Notes, Work, fire_note, new_notes};
use std::alloc::Global;
use std::sync::Arc;
use std::sync::atomic::{AtomicBool, Ordering};
use vmm_sys::errno::Errno;
use vmm_sys::eventfd::EventFd;
use vmm_sys::script_poller::ScriptPoller;

type Loop<N, P> = TrackedManager<Asking, Work, N, P>;

type Endpoint<N> = RemoteEndpoint<Asking, Work, N>;

/// What the two threads do.
#[derive(Clone, Copy)]
enum Kind<'a> {
    /// One sends while a job of the other's waits at the gate.
    AtGate,
    /// One sends and is refused, and the other looks how many jobs wait.
    LooksBesideSends,
    /// One sends before and after the other closes.
    CloseBesideSends,
    /// The loop ends by itself while its sender calls.
    Leaves,
    /// It ends by a refused run while its sender calls.
    IsRefused,
    /// It runs once its sender has ended.
    Late,
    /// The same, with the endpoint behind these ready descriptors, more than a batch has room for.
    Crowded(&'a [EventFd]),
    /// A caller wakes the loop, which sleeps in a wait for this counter.
    Wakes(&'a OwnCounter),
    /// The loop ends while a caller waits.
    Closes,
    /// The loop's own thread sends until this counter is full; there is no sender.
    Fills(&'a OwnCounter),
}

/// What the two threads share.
#[derive(Drop)]
struct Shared {
    gate: Arc<Gate>,
    notes: Notes,
    is_over: AtomicBool,
}

/// Either of the two.
#[derive(Clone, Copy)]
struct Meeting<'a> {
    shared: &'a Shared,
    kind: Kind<'a>,
}

/// What a sender is answered, as far as that is looked at outside.
type Answers = [Option<Result<u64>>; 2];

const NONE: Answers = [None; 2];

/// Sends a job that waits at the gate, and one that notes 2.
fn fire_at_gate<N: NamedCounter, R: Looping>(rt: &R, endpoint: &Endpoint<N>, shared: &Shared) {
    let gate = expect_ok(rt, shared.gate.clone());
    let notes = expect_ok(rt, shared.notes.clone());
    expect_ok(rt, endpoint.fire(Work::Pass(gate, notes), rt));
    expect_ok(rt, fire_note(rt, endpoint, &shared.notes, 2));
}

/// Sends while a job waits at the gate and no other waits, and then lets it go on.
fn send_meanwhile<N: NamedCounter, R: Looping>(rt: &R, endpoint: &Endpoint<N>, shared: &Shared) {
    expect_same(rt, &shared.gate.wait_for(1, rt), &true);
    expect_same(rt, &endpoint.pending(), &Some(0));
    expect_same(rt, &fire_note(rt, endpoint, &shared.notes, 3), &Ok(3));
    shared.gate.set(2, rt);
}

/// Runs for the first two jobs, and then for the third.
fn run_twice<N: NamedCounter, P: EventPoller, R: Looping>(
    rt: &R,
    manager: &mut Loop<N, P>,
    notes: &Notes,
) {
    expect_same(rt, &manager.run_with_timeout(1000, rt), &Ok(1));
    expect_noted(rt, notes, &[1, 2]);
    expect_same(rt, &manager.run_with_timeout(0, rt), &Ok(1));
    expect_noted(rt, notes, &[1, 2, 3]);
}

/// How often a thread looks, and how often the other sends, at most: for seconds.
const MOST: u32 = 50_000_000;

/// Sends until it is told to stop, and expects that each send is refused.
fn send_in_vain<N: NamedCounter, R: Looping>(rt: &R, endpoint: &Endpoint<N>, shared: &Shared) {
    for _send in 0..MOST {
        if shared.is_over.load(Ordering::SeqCst) {
            break;
        }
        expect_same(rt, &endpoint.fire(Work::Own(0), rt).is_err(), &true);
    }
}

/// Looks until the answer isn't that one job waits, expects that it isn't known, and tells the other thread to stop.
fn look<N: NamedCounter, R: Looping>(rt: &R, endpoint: &Endpoint<N>, shared: &Shared) {
    let mut seen = Some(1);
    for _look in 0..MOST {
        seen = endpoint.pending();
        if seen != Some(1) {
            break;
        }
    }
    shared.is_over.store(true, Ordering::SeqCst);
    expect_same(rt, &seen, &None);
}

/// Sends two jobs, and a third once none waits any more, which is refused.
fn send_round_a_close<N: NamedCounter, R: Looping>(rt: &R, endpoint: &Endpoint<N>, notes: &Notes) {
    expect_same(rt, &fire_note(rt, endpoint, notes, 1), &Ok(1));
    expect_same(rt, &fire_note(rt, endpoint, notes, 2), &Ok(2));
    expect_same(rt, &wait_until_pending(rt, endpoint, 0), &true);
    let third = fire_note(rt, endpoint, notes, 3);
    expect_same(rt, &third, &Err(Error::ChannelSend));
    expect_noted(rt, notes, &[]);
    expect_same(rt, &endpoint.pending(), &Some(0));
}

/// Sends two jobs, which are run, and a third, which waits at the close: what that and a fourth are answered.
fn stay<N: NamedCounter, R: Looping>(rt: &R, endpoint: &Endpoint<N>, notes: &Notes) -> Answers {
    expect_same(rt, &fire_note(rt, endpoint, notes, 1), &Ok(1));
    expect_same(rt, &fire_note(rt, endpoint, notes, 2), &Ok(2));
    expect_same(rt, &wait_until_pending(rt, endpoint, 0), &true);
    let third = Work::Note(expect_ok(rt, notes.clone()), 3);
    let called = endpoint.call_blocking(third, rt);
    [Some(called), Some(fire_note(rt, endpoint, notes, 4))]
}

/// Makes descriptors ready before the endpoint is.
fn crowd<N: NamedCounter, P: EventPoller, R: Looping>(
    rt: &R,
    alloc: Global,
    manager: &mut Loop<N, P>,
    ready: &[EventFd],
) -> Result<()> {
    let mut adds = Vec::new(alloc);
    for counter in ready {
        let own = Events::new(counter, EventSet::IN);
        adds.push(Request::Add(own)).map_err(no_memory)?;
    }
    let asking = Asking::new(alloc, &adds, &[]).map_err(no_memory)?;
    manager.add_subscriber(asking)?;
    // The endpoint, the first that was added, is reported, and stands behind those of whom a batch has had none then.
    manager.remote_endpoint()?.kick(rt)?;
    manager.run_with_timeout(0, rt)?;
    Ok(())
}

/// Sends until the counter is full, and once more behind a run, which clears it once.
fn fill<N: NamedCounter, P: EventPoller, R: Looping>(
    rt: &R,
    manager: &mut Loop<N, P>,
    endpoint: &Endpoint<N>,
    notes: &Notes,
    counter: &OwnCounter,
) {
    for number in 1..=HIGHEST {
        expect_same(rt, &fire_note(rt, endpoint, notes, number), &Ok(number));
    }
    let full = Error::EventFd(Errno::EAGAIN);
    expect_same(rt, &fire_note(rt, endpoint, notes, 9), &Err(full));
    expect_same(rt, &endpoint.kick(rt), &Err(full));
    expect_same(rt, &counter.clears(rt), &0);
    expect_same(rt, &manager.run(rt), &Ok(1));
    expect_same(rt, &counter.clears(rt), &1);
    expect_noted(rt, notes, &[1, 2, 3]);
    expect_same(rt, &fire_note(rt, endpoint, notes, 4), &Ok(4));
}

impl<R: Looping> JobSender<Asking, Work, Answers, R> for Meeting<'_> {
    fn send<N: NamedCounter>(self, endpoint: &Endpoint<N>, rt: &R) -> Answers {
        let Meeting { shared, kind } = self;
        match kind {
            Kind::AtGate => send_meanwhile(rt, endpoint, shared),
            Kind::LooksBesideSends => send_in_vain(rt, endpoint, shared),
            Kind::CloseBesideSends => send_round_a_close(rt, endpoint, &shared.notes),
            Kind::Leaves | Kind::IsRefused => return stay(rt, endpoint, &shared.notes),
            Kind::Late | Kind::Crowded(_) => {
                return [Some(fire_note(rt, endpoint, &shared.notes, 1)), None];
            }
            Kind::Wakes(counter) => {
                expect_same(rt, &counter.wait_for_sleeper(rt), &true);
                return [Some(endpoint.call_blocking(Work::Own(7), rt)), None];
            }
            Kind::Closes => return [Some(endpoint.call_blocking(Work::Own(7), rt)), None],
            Kind::Fills(_) => {}
        }
        NONE
    }
}

/// Expects that `pending` jobs wait once the sender has ended.
fn expect_behind<N: NamedCounter, R: Looping>(
    rt: &R,
    endpoint: &Endpoint<N>,
    senders: &Senders,
    pending: usize,
) {
    expect_same(rt, &wait_until_ended(rt, senders), &true);
    expect_same(rt, &endpoint.pending(), &Some(pending));
}

/// Waits for the two jobs of a sender, runs them, and waits for its third.
fn run_for_two<N: NamedCounter, P: EventPoller, R: Looping>(
    rt: &R,
    manager: &mut Loop<N, P>,
    endpoint: &Endpoint<N>,
) {
    expect_same(rt, &wait_until_pending(rt, endpoint, 2), &true);
    expect_same(rt, &manager.run(rt), &Ok(1));
    expect_same(rt, &wait_until_pending(rt, endpoint, 1), &true);
}

impl<'a, R: Looping> LoopWithSenders<Asking, Work, Meeting<'a>, R> for Meeting<'a> {
    fn begin<N: NamedCounter, P: EventPoller>(
        &mut self,
        rt: &R,
        alloc: Global,
        manager: &mut Loop<N, P>,
    ) -> Result<Vec<Meeting<'a>>> {
        let endpoint = expect_ok(rt, manager.remote_endpoint());
        match self.kind {
            Kind::AtGate => fire_at_gate(rt, &endpoint, self.shared),
            // Behind this job the counter is full.
            Kind::LooksBesideSends => {
                expect_ok(rt, endpoint.fire(Work::Own(0), rt));
            }
            Kind::Crowded(ready) => crowd(rt, alloc, manager, ready)?,
            Kind::Fills(counter) => {
                fill(rt, manager, &endpoint, &self.shared.notes, counter);
                return Ok(Vec::new(alloc));
            }
            _ => {}
        }
        Ok(expect_ok(rt, Vec::from_array(alloc, [*self])))
    }

    fn run<N: NamedCounter, P: EventPoller>(
        &mut self,
        rt: &R,
        manager: &mut Loop<N, P>,
        senders: &Senders,
    ) -> Result<()> {
        let endpoint = expect_ok(rt, manager.remote_endpoint());
        match self.kind {
            Kind::AtGate => {
                run_twice(rt, manager, &self.shared.notes);
                expect_behind(rt, &endpoint, senders, 0);
                return Ok(());
            }
            Kind::LooksBesideSends => {
                look(rt, &endpoint, self.shared);
                expect_behind(rt, &endpoint, senders, 1);
                return Ok(());
            }
            Kind::CloseBesideSends => {
                expect_same(rt, &wait_until_pending(rt, &endpoint, 2), &true);
                return Ok(());
            }
            Kind::Closes => {
                expect_same(rt, &wait_until_pending(rt, &endpoint, 1), &true);
                return Ok(());
            }
            Kind::Leaves => {
                run_for_two(rt, manager, &endpoint);
                return Ok(());
            }
            Kind::IsRefused => run_for_two(rt, manager, &endpoint),
            Kind::Late | Kind::Crowded(_) => {
                expect_same(rt, &wait_until_ended(rt, senders), &true);
            }
            Kind::Wakes(_) | Kind::Fills(_) => {}
        }
        senders.run_until_ended(manager, rt)
    }
}

/// What is seen of a meeting.
#[derive(Clone, Copy)]
struct Seen<'a> {
    /// What the loop answers.
    ran: Result<()>,
    /// What its sender was answered.
    sent: &'a [Answers],
    /// How many tickets were issued, and how many jobs taken.
    counts: (u64, u64),
    /// What the jobs noted.
    noted: &'a [u64],
}

/// Expects this where the two meet at a new manager of these parts.
fn expect_seen<P: EventPoller + Send + Drop, C: Counter + Send + Sync + Drop, R: Host>(
    rt: &R,
    parts: Parts<P, C>,
    kind: Kind<'_>,
    seen: Seen<'_>,
) {
    let alloc = parts.alloc;
    let shared = Shared {
        gate: expect_ok(rt, Arc::new(alloc, Gate::new())),
        notes: expect_ok(rt, new_notes(alloc)),
        is_over: AtomicBool::new(false),
    };
    let mut meeting = Meeting {
        shared: &shared,
        kind,
    };
    let ended = expect_ok(rt, beside_senders(rt, parts, &mut meeting));
    expect_same(rt, &ended.ran, &seen.ran);
    expect_same(rt, &ended.sent.as_slice(), &seen.sent);
    expect_same(rt, &(ended.issued, ended.taken), &seen.counts);
    expect_noted(rt, &shared.notes, seen.noted);
}

/// The same over a new table, where the endpoint's counter has this value, of a loop that answers `Ok`.
fn expect_on_table<R: Host>(
    rt: &R,
    alloc: Global,
    value: u64,
    kind: Kind<'_>,
    sent: Answers,
    counts: (u64, u64),
    noted: &[u64],
) {
    let parts = expect_ok(rt, on_table(*rt, alloc, value));
    let seen = Seen {
        ran: Ok(()),
        sent: &[sent],
        counts,
        noted,
    };
    expect_seen(rt, parts, kind, seen);
}

#[test]
fn lock_is_free_while_jobs_run(rt: HostRuntime) {
    let kind = Kind::AtGate;
    expect_on_table(&rt, rt.alloc(), 0, kind, NONE, (3, 3), &[1, 2, 3]);
}

#[test]
fn pending_is_unknown_while_the_lock_is_held(rt: HostRuntime) {
    let kind = Kind::LooksBesideSends;
    expect_on_table(&rt, rt.alloc(), u64::MAX - 2, kind, NONE, (1, 0), &[]);
}

#[test]
fn a_sender_is_refused_after_a_close(rt: HostRuntime) {
    let kind = Kind::CloseBesideSends;
    expect_on_table(&rt, rt.alloc(), 0, kind, NONE, (2, 0), &[]);
}

/// What a sender is answered that fires a job and ends.
const FIRED: Answers = [Some(Ok(1)), None];

#[test]
fn what_the_last_sender_fired_is_run(rt: HostRuntime) {
    expect_on_table(&rt, rt.alloc(), 0, Kind::Late, FIRED, (1, 1), &[1]);
}

/// Parts over a script of one event of the endpoint's, and a refused wait before or behind it.
fn parts_with_fault<R: Host>(rt: &R, alloc: Global, is_first: bool) -> Parts<ScriptPoller> {
    let mut script = ScriptPoller::new(alloc);
    if is_first {
        expect_ok(rt, script.push_fault(Errno::EBADF));
    }
    expect_ok(rt, push_words(&mut script, alloc, EventSet::IN, &[0]));
    if !is_first {
        expect_ok(rt, script.push_fault(Errno::EBADF));
    }
    expect_ok(rt, silent_parts(*rt, alloc, script))
}

const FAULT: Result<()> = Err(Error::Epoll(Errno::EBADF));

#[test]
fn a_loop_that_ends_before_its_sender_is_closed(rt: HostRuntime) {
    for (kind, ran) in [(Kind::Leaves, Ok(())), (Kind::IsRefused, FAULT)] {
        let parts = parts_with_fault(&rt, rt.alloc(), false);
        let (called, fired) = (Err(Error::ChannelRecv), Err(Error::ChannelSend));
        let seen = Seen {
            ran,
            sent: &[[Some(called), Some(fired)]],
            counts: (3, 2),
            noted: &[1, 2],
        };
        expect_seen(&rt, parts, kind, seen);
    }
}

#[test]
fn a_refused_run_behind_the_last_sender_is_told(rt: HostRuntime) {
    let seen = Seen {
        ran: FAULT,
        sent: &[FIRED],
        counts: (1, 0),
        noted: &[],
    };
    let parts = parts_with_fault(&rt, rt.alloc(), true);
    expect_seen(&rt, parts, Kind::Late, seen);
}

/// How many descriptors stay ready: of these and the endpoint behind some of them a batch, of at most 256, leaves many out.
const CROWD: usize = 600;

#[test]
fn what_a_full_batch_leaves_out_is_run(rt: HostRuntime) {
    let parts = expect_ok(&rt, on_table(rt, rt.alloc(), 0));
    let mut ready = Vec::new(rt.alloc());
    for _one in 0..CROWD {
        let counter = expect_ok(&rt, EventFd::new(&parts.poller, 1, &rt));
        expect_ok(&rt, ready.push(counter));
    }
    let seen = Seen {
        ran: Ok(()),
        sent: &[FIRED],
        counts: (1, 1),
        noted: &[1],
    };
    expect_seen(&rt, parts, Kind::Crowded(&ready), seen);
}

/// Expects this over a counter of the tests' own, of a loop that answers `Ok`.
fn expect_on_own<R: Host>(
    rt: &R,
    parts: Parts<OwnPoller<R>, OwnCounter>,
    kind: Kind<'_>,
    sent: &[Answers],
    counts: (u64, u64),
    noted: &[u64],
) {
    let seen = Seen {
        ran: Ok(()),
        sent,
        counts,
        noted,
    };
    expect_seen(rt, parts, kind, seen);
}

#[test]
fn a_counter_of_ones_own_ends_a_wait(rt: HostRuntime) {
    let parts = expect_ok(&rt, own_parts(rt, rt.alloc()));
    let watched = expect_ok(&rt, parts.counter.try_clone());
    let called = [Some(Ok(7)), None];
    expect_on_own(&rt, parts, Kind::Wakes(&watched), &[called], (1, 1), &[]);
}

#[test]
fn a_close_answers_a_caller_over_a_counter_of_ones_own(rt: HostRuntime) {
    let parts = expect_ok(&rt, own_parts(rt, rt.alloc()));
    let refused = [Some(Err(Error::ChannelRecv)), None];
    expect_on_own(&rt, parts, Kind::Closes, &[refused], (1, 0), &[]);
}

#[test]
fn a_full_counter_of_ones_own_refuses_a_send(rt: HostRuntime) {
    let parts = expect_ok(&rt, own_parts(rt, rt.alloc()));
    let watched = expect_ok(&rt, parts.counter.try_clone());
    let kind = Kind::Fills(&watched);
    expect_on_own(&rt, parts, kind, &[], (4, 4), &[1, 2, 3, 4]);
}

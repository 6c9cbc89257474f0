//! Courses of calls of a manager and of its endpoints, each ended by a close.

use crate::expecting::{Looping, expect_noted, expect_ok, expect_same};
use event_manager::{
    Error, EventManager, EventPoller, EventSet, Events, Ledgers, NamedCounter, RemoteEndpoint,
    Result, Ticket, WithLedgers, with_ledgers,
};
use fixtures::making::make;
use fixtures::noting::{Noting, add_noting};
use fixtures::parts::{Parts, on_table};
use fixtures::work::{Notes, Work, count_of, fire_note, new_notes};
use std::alloc::Global;
use std::sync::Arc;
use vmm_sys::epoll::{AsRawFd, ControlOperation, EpollEvent};
use vmm_sys::errno::Errno;
use vmm_sys::eventfd::EventFd;
use vmm_sys::poller::Poller;
use vmm_sys::script_poller::ScriptPoller;

/// The manager of a course.
type Loop<N, P, R> = EventManager<Noting<R>, Work, N, P>;

/// An endpoint of it.
type Endpoint<N, R> = RemoteEndpoint<Noting<R>, Work, N>;

/// The largest value of an `EventFd`.
const FULL: u64 = 18446744073709551614;

/// What the subscriber notes.
const DELIVERED: u64 = 3;

/// What is done before the close, and what must come of it.
#[derive(Clone, Copy)]
enum Step<'a> {
    /// Jobs that note the numbers from the first to the last are sent by the first endpoint, and have the tickets of these numbers.
    Fire(u64, u64),
    /// One is sent by the second endpoint.
    FireBySecond(u64),
    /// This many are sent by an endpoint that is then dropped.
    FireAndDrop(u64),
    /// One more is sent, whose ticket is shown behind the close.
    FireToShow,
    /// A job and a call are refused with this, and no job waits then.
    AreRefused(Error),
    /// A kick is answered this.
    Kick(Result<()>),
    /// A run of at most this many milliseconds answers this.
    Run(i32, Result<usize>),
    /// This many jobs wait.
    Wait(usize),
    /// The numbers from 1 up to this one were noted.
    Count(usize),
    /// This was noted.
    Noted(&'a [u64]),
    /// 1 is read of this counter.
    Read(&'a EventFd),
    /// A subscriber of these events joins.
    Join(Events),
}

/// Sends jobs that note the numbers from the first to the last: each must have the ticket of its number.
fn fire_counting<N: NamedCounter, R: Looping>(
    rt: &R,
    endpoint: &Endpoint<N, R>,
    notes: &Notes,
    first: u64,
    last: u64,
) {
    for number in first..=last {
        expect_same(rt, &fire_note(rt, endpoint, notes, number), &Ok(number));
    }
}

/// Expects that a job and a call are refused with this, and that no job waits then.
fn expect_refusals<N: NamedCounter, R: Looping>(rt: &R, endpoint: &Endpoint<N, R>, refusal: Error) {
    let fired = endpoint.fire(Work::Own(1), rt).map(|t| t.number());
    expect_same(rt, &fired, &Err(refusal));
    expect_same(rt, &endpoint.call_blocking(Work::Own(1), rt), &Err(refusal));
    expect_same(rt, &endpoint.pending(), &Some(0));
}

/// Makes the step: the ticket to show, if it has one.
fn make_step<N: NamedCounter, P: EventPoller, R: Looping>(
    rt: &R,
    manager: &mut Loop<N, P, R>,
    endpoints: &[Endpoint<N, R>; 2],
    notes: &Notes,
    step: &Step<'_>,
) -> Option<Ticket<N>> {
    let [first, second] = endpoints;
    match step {
        Step::Fire(from, to) => fire_counting(rt, first, notes, *from, *to),
        Step::FireBySecond(number) => fire_counting(rt, second, notes, *number, *number),
        Step::FireAndDrop(count) => {
            let endpoint = expect_ok(rt, manager.remote_endpoint());
            fire_counting(rt, &endpoint, notes, 1, *count);
        }
        Step::FireToShow => return Some(expect_ok(rt, first.fire(Work::Own(0), rt))),
        Step::AreRefused(refusal) => expect_refusals(rt, first, *refusal),
        Step::Kick(answer) => expect_same(rt, &first.kick(rt), answer),
        Step::Run(ms, answer) => expect_same(rt, &manager.run_with_timeout(*ms, rt), answer),
        Step::Wait(count) => {
            let waiting = (first.pending(), second.pending());
            expect_same(rt, &waiting, &(Some(*count), Some(*count)));
        }
        Step::Count(count) => expect_same(rt, &count_of(rt, notes), &Some(*count)),
        Step::Noted(noted) => expect_noted(rt, notes, noted),
        Step::Read(counter) => expect_same(rt, &counter.read(rt), &Ok(1)),
        Step::Join(own) => {
            expect_ok(rt, add_noting(rt, manager, *own, DELIVERED, notes));
        }
    }
    None
}

/// Expects of endpoints of a closed manager that each send is refused and a kick agreed, and that no job is left.
fn expect_closed<N: NamedCounter, R: Looping>(
    rt: &R,
    endpoints: &[Endpoint<N, R>; 2],
    notes: &Notes,
    shown: &Option<Ticket<N>>,
) {
    for endpoint in endpoints {
        expect_refusals(rt, endpoint, Error::ChannelSend);
        if let Some(shown) = shown {
            let refused = endpoint.fire_after(shown, Work::Own(2), rt).err();
            expect_same(rt, &refused, &Some(Error::ChannelSend));
            expect_same(rt, &endpoint.pending(), &Some(0));
        }
    }
    let [endpoint, _] = endpoints;
    expect_same(rt, &endpoint.kick(rt), &Ok(()));
    expect_same(rt, &Arc::strong_count(notes), &1);
}

/// Makes the steps, and closes the manager, of which these `counts` of tickets must then be issued and jobs taken.
fn follow_and_close<N: NamedCounter, P: EventPoller + Drop, R: Looping>(
    rt: &R,
    manager: Loop<N, P, R>,
    notes: &Notes,
    course: &[Step<'_>],
    counts: (u64, u64),
) {
    let mut manager = manager;
    let first = expect_ok(rt, manager.remote_endpoint());
    let second = expect_ok(rt, first.try_clone());
    let endpoints = [first, second];
    let mut shown = None;
    for step in course {
        if let Some(ticket) = make_step(rt, &mut manager, &endpoints, notes, step) {
            shown = Some(ticket);
        }
    }
    let closed = manager.close(rt);
    expect_same(rt, &(closed.issued(), closed.taken()), &counts);
    expect_closed(rt, &endpoints, notes, &shown);
}

/// A course, and the parts of its manager but for the counter.
struct Run<'a, R, P> {
    rt: &'a R,
    parts: Parts<P, ()>,
    notes: &'a Notes,
    course: &'a [Step<'a>],
    counts: (u64, u64),
}

impl<R: Looping, P: EventPoller + Drop> WithLedgers for Run<'_, R, P> {
    type Output = ();

    fn run<N: NamedCounter + Send + Sync>(self, counter: N, ledgers: Ledgers<N>) {
        let Run {
            rt,
            parts,
            notes,
            course,
            counts,
        } = self;
        let manager = expect_ok(rt, make::<Noting<R>, Work, N, P>(parts, counter, ledgers));
        follow_and_close(rt, manager, notes, course, counts);
    }
}

/// Runs the course over these parts, and closes: these `counts` of tickets must then be issued and jobs taken, no job be left,
/// and each send be refused.
fn expect_over<R: Looping, P: EventPoller + Drop>(
    rt: &R,
    parts: Parts<P>,
    course: &[Step<'_>],
    counts: (u64, u64),
) {
    let notes = expect_ok(rt, new_notes(parts.alloc));
    let (counter, parts) = parts.split();
    let run = Run {
        rt,
        parts,
        notes: &notes,
        course,
        counts,
    };
    with_ledgers(counter, run);
}

/// The same over a new table, where the endpoint's counter has this value.
fn expect_course<R: Looping + Send>(
    rt: R,
    alloc: Global,
    value: u64,
    course: &[Step<'_>],
    counts: (u64, u64),
) {
    let parts = expect_ok(&rt, on_table(rt, alloc, value));
    expect_over(&rt, parts, course, counts);
}

/// `count` jobs are sent, and run.
fn send_and_run<'a>(count: u16) -> [Step<'a>; 6] {
    [
        Step::Fire(1, u64::from(count)),
        Step::Wait(usize::from(count)),
        Step::Run(-1, Ok(1)),
        Step::Count(usize::from(count)),
        Step::Run(0, Ok(0)),
        Step::Wait(0),
    ]
}

#[test]
fn two_fired_jobs_run_in_order(rt: HostRuntime) {
    expect_course(rt, rt.alloc(), 0, &send_and_run(2), (2, 2));
}

#[test]
fn five_thousand_jobs_wait_and_are_run(rt: HostRuntime) {
    expect_course(rt, rt.alloc(), 0, &send_and_run(5000), (5000, 5000));
}

#[test]
fn jobs_outlive_their_endpoint(rt: HostRuntime) {
    let course = [
        Step::FireAndDrop(2),
        Step::Run(-1, Ok(1)),
        Step::Noted(&[1, 2]),
    ];
    expect_course(rt, rt.alloc(), 0, &course, (2, 2));
}

#[test]
fn an_endpoint_is_of_its_manager(rt: HostRuntime) {
    let course = [
        Step::Fire(1, 1),
        Step::Wait(1),
        Step::FireBySecond(2),
        Step::Wait(2),
        Step::Fire(3, 3),
        Step::Wait(3),
        Step::Run(-1, Ok(1)),
        Step::Count(3),
        Step::Wait(0),
    ];
    expect_course(rt, rt.alloc(), 0, &course, (3, 3));
}

#[test]
fn a_full_counter_refuses_the_send(rt: HostRuntime) {
    let refusal = Error::EventFd(Errno::EAGAIN);
    let course = [
        Step::AreRefused(refusal),
        Step::Kick(Err(refusal)),
        Step::Run(-1, Ok(1)),
        Step::Fire(1, 1),
    ];
    expect_course(rt, rt.alloc(), FULL, &course, (1, 0));
}

#[test]
fn a_close_drops_the_jobs_that_wait(rt: HostRuntime) {
    let course = [Step::Fire(1, 2), Step::FireToShow];
    expect_course(rt, rt.alloc(), 0, &course, (3, 0));
}

#[test]
fn a_kick_ends_a_wait(rt: HostRuntime) {
    let parts = expect_ok(&rt, on_table(rt, rt.alloc(), 0));
    let silent = expect_ok(&rt, EventFd::new(&parts.poller, 0, &rt));
    let course = [
        Step::Join(Events::new(&silent, EventSet::IN)),
        Step::Kick(Ok(())),
        Step::Run(5000, Ok(1)),
        Step::Run(0, Ok(0)),
        Step::Kick(Ok(())),
        Step::Run(-1, Ok(1)),
        Step::Noted(&[]),
    ];
    expect_over(&rt, parts, &course, (0, 0));
}

#[test]
fn a_kick_after_a_close_is_agreed_and_read_by_nobody(rt: HostRuntime) {
    let parts = expect_ok(&rt, on_table(rt, rt.alloc(), 0));
    let counter = expect_ok(&rt, parts.counter.try_clone());
    expect_over(&rt, parts, &[], (0, 0));
    expect_same(&rt, &counter.read(&rt), &Ok(1));
}

#[test]
fn a_close_asks_the_poller_for_nothing(rt: HostRuntime) {
    let parts = expect_ok(&rt, on_table(rt, rt.alloc(), 0));
    let mut epoll = expect_ok(&rt, parts.poller.try_clone());
    let fd = parts.counter.as_raw_fd();
    expect_over(&rt, parts, &[], (0, 0));
    let nothing = EpollEvent::new(EventSet::empty(), 0);
    let deleted = epoll.ctl(ControlOperation::Delete, fd, nothing);
    expect_same(&rt, &deleted, &Ok(()));
}

/// The words and sets of a report.
type Report<'a> = &'a [(u64, EventSet)];

/// The parts over a script of these reports, whose endpoint has descriptor 0 and this value.
fn on_script<R: Looping + Send>(
    rt: &R,
    alloc: Global,
    reports: &[Report<'_>],
    value: u64,
) -> Parts<ScriptPoller> {
    let mut script = ScriptPoller::new(alloc);
    for report in reports {
        let mut events = Vec::new(alloc);
        for &(word, set) in *report {
            expect_ok(rt, events.push(EpollEvent::new(set, word)));
        }
        expect_ok(rt, script.push_report(events));
    }
    let Parts { counter, .. } = expect_ok(rt, on_table(*rt, alloc, value));
    Parts::new(alloc, script, counter)
}

/// An event of the subscriber's, and one of the endpoint's.
const OTHERS: (u64, EventSet) = (3, EventSet::IN);

const ITS_OWN: (u64, EventSet) = (0, EventSet::IN);

#[test]
fn reports_of_an_endpoint_event_of_any_set(rt: HostRuntime) {
    let (writable, none) = ((0, EventSet::OUT), (0, EventSet::empty()));
    let reports: [(Report<'_>, &[u64]); 4] = [
        (&[OTHERS, writable, OTHERS], &[DELIVERED, DELIVERED, 1]),
        (&[OTHERS, none], &[DELIVERED, 1]),
        (&[ITS_OWN, OTHERS], &[DELIVERED, 1]),
        (&[writable, OTHERS, none], &[DELIVERED, 1]),
    ];
    for (report, noted) in reports {
        let course = [
            Step::Join(Events::new_raw(3, EventSet::IN)),
            Step::Fire(1, 1),
            Step::Run(-1, Ok(report.len())),
            Step::Noted(noted),
            Step::Wait(0),
        ];
        expect_over(
            &rt,
            on_script(&rt, rt.alloc(), &[report], 0),
            &course,
            (1, 1),
        );
    }
}

#[test]
fn jobs_are_run_where_the_counter_has_nothing(rt: HostRuntime) {
    let parts = on_script(&rt, rt.alloc(), &[&[ITS_OWN]], 0);
    let counter = expect_ok(&rt, parts.counter.try_clone());
    let course = [
        Step::Fire(1, 1),
        Step::Read(&counter),
        Step::Run(-1, Ok(1)),
        Step::Noted(&[1]),
    ];
    expect_over(&rt, parts, &course, (1, 1));
}

#[test]
fn endpoint_event_is_answered_by_its_own_run_alone(rt: HostRuntime) {
    let parts = on_script(&rt, rt.alloc(), &[&[ITS_OWN], &[(7, EventSet::IN)]], 3);
    let counter = expect_ok(&rt, parts.counter.try_clone());
    let course = [
        Step::Run(-1, Ok(1)),
        Step::Kick(Ok(())),
        Step::Run(-1, Ok(1)),
        Step::Read(&counter),
    ];
    expect_over(&rt, parts, &course, (0, 0));
}

//! Loops and their senders: who runs when, what ends a loop, and what its senders then get.

use crate::ending::{Counted, Course, beside_senders};
use crate::expecting::{Host, Looping, expect_ok, expect_same};
use crate::rounds::Round;
use event_manager::{
    Error, EventPoller, EventSet, Events, JobSender, LoopWithSenders, NamedCounter, NoJob,
    RemoteEndpoint, Result, TrackedManager,
};
use fixtures::noting::{Noting, make_noting};
use fixtures::parts::{Idle, Parts, on_table, silent_parts};
use fixtures::waits::{is_counted_within, wait_until_counted, wait_until_noted};
use fixtures::work::{Notes, new_notes};
use std::alloc::Global;
use std::sync::atomic::{AtomicU64, Ordering};
use vmm_sys::epoll::{ControlOperation, Epoll, EpollEvent};
use vmm_sys::errno::Errno;
use vmm_sys::eventfd::EventFd;
use vmm_sys::poller::Poller;
use vmm_sys::script_poller::ScriptPoller;

/// Parts over a new table whose waits are counted.
fn on_counted_table<'a, R: Looping + Send>(
    rt: &R,
    alloc: Global,
    course: &'a Course,
) -> Parts<Counted<'a, Epoll<R>>> {
    let Parts {
        poller,
        counter,
        ..
    } = expect_ok(rt, on_table(*rt, alloc, 0));
    Parts::new(alloc, Counted { poller, course }, counter)
}

/// A sender that ends once all have begun, the loop waits, and those behind it are ending and wake nobody. It gives its number.
#[derive(Drop)]
struct Meeting<'a> {
    course: &'a Course,
    number: u64,
}

/// How many meet.
const MEETING: u64 = 3;

/// How many looks of a millisecond show that nobody was woken.
const QUIET: u32 = 100;

impl<R: Looping> JobSender<Idle, NoJob, u64, R> for Meeting<'_> {
    fn send<N: NamedCounter>(self, _endpoint: &RemoteEndpoint<Idle, NoJob, N>, rt: &R) -> u64 {
        let Meeting { course, number } = self;
        course.begun.fetch_add(1, Ordering::SeqCst);
        let all_begun = wait_until_counted(rt, &course.begun, MEETING);
        let loop_waits = wait_until_counted(rt, &course.waits, 1);
        let is_next = wait_until_counted(rt, &course.ending, MEETING.saturating_sub(number));
        expect_same(rt, &(all_begun, loop_waits, is_next), &(true, true, true));
        let is_woken = is_counted_within(rt, QUIET, &course.waits, 2);
        expect_same(rt, &is_woken, &false);
        course.ending.fetch_add(1, Ordering::SeqCst);
        number
    }
}

/// A loop that senders meet beside, and nothing else.
#[derive(Drop)]
struct Meet<'a> {
    course: &'a Course,
    /// What its begin is refused with.
    refusal: Option<Error>,
    has_begun: bool,
}

impl<'a, R: Looping> LoopWithSenders<Idle, NoJob, Meeting<'a>, R> for Meet<'a> {
    fn begin<N: NamedCounter, P: EventPoller>(
        &mut self,
        rt: &R,
        alloc: Global,
        _manager: &mut TrackedManager<Idle, NoJob, N, P>,
    ) -> Result<Vec<Meeting<'a>>> {
        self.has_begun = true;
        if let Some(refusal) = self.refusal {
            return Err(refusal);
        }
        let course = self.course;
        let senders = [1, 2, 3].map(|number| Meeting { course, number });
        Ok(expect_ok(rt, Vec::from_array(alloc, senders)))
    }
}

#[test]
fn the_last_of_three_senders_ends_a_loop_that_waits(rt: HostRuntime) {
    let course = Course::new();
    let parts = on_counted_table(&rt, rt.alloc(), &course);
    let mut body = Meet {
        course: &course,
        refusal: None,
        has_begun: false,
    };
    let ended = expect_ok(&rt, beside_senders(&rt, parts, &mut body));
    expect_same(&rt, &ended.ran, &Ok(()));
    expect_same(&rt, &ended.sent.as_slice(), &[1, 2, 3].as_slice());
}

/// Expects that no sender begins, and this answer; and whether the loop has begun.
fn expect_refusal<P: EventPoller + Send + Drop, R: Host>(
    rt: &R,
    parts: Parts<P>,
    refusal: Option<Error>,
    answer: Error,
    has_begun: bool,
) {
    let course = Course::new();
    let mut body = Meet {
        course: &course,
        refusal,
        has_begun: false,
    };
    let refused = beside_senders(rt, parts, &mut body);
    expect_same(rt, &refused.err(), &Some(answer));
    expect_same(rt, &body.has_begun, &has_begun);
    expect_same(rt, &course.begun.load(Ordering::SeqCst), &0);
}

#[test]
fn a_refused_begin_starts_no_sender(rt: HostRuntime) {
    let parts = expect_ok(&rt, on_table(rt, rt.alloc(), 0));
    let refusal = Error::IdsUsedUp;
    expect_refusal(&rt, parts, Some(refusal), refusal, true);
    let mut script = ScriptPoller::new(rt.alloc());
    let refused = script.push_refusal(ControlOperation::Add, 0, Errno::EMFILE);
    expect_ok(&rt, refused);
    let parts = expect_ok(&rt, silent_parts(rt, rt.alloc(), script));
    expect_refusal(&rt, parts, None, Error::Epoll(Errno::EMFILE), false);
}

/// A sender that causes events, and ends once the subscriber has noted three.
#[derive(Drop)]
struct Causing<'a> {
    counter: &'a EventFd,
    notes: &'a Notes,
}

impl<R: Looping> JobSender<Noting<R>, NoJob, (), R> for Causing<'_> {
    fn send<N: NamedCounter>(self, _endpoint: &RemoteEndpoint<Noting<R>, NoJob, N>, rt: &R) {
        expect_ok(rt, self.counter.write(1, rt));
        expect_same(rt, &wait_until_noted(rt, self.notes, 3), &true);
    }
}

/// A loop with a subscriber of a counter that a sender writes to.
#[derive(Drop)]
struct Joining<'a> {
    course: &'a Course,
    counter: &'a EventFd,
    notes: &'a Notes,
}

impl<'a, R: Looping> LoopWithSenders<Noting<R>, NoJob, Causing<'a>, R> for Joining<'a> {
    fn begin<N: NamedCounter, P: EventPoller>(
        &mut self,
        rt: &R,
        alloc: Global,
        manager: &mut TrackedManager<Noting<R>, NoJob, N, P>,
    ) -> Result<Vec<Causing<'a>>> {
        expect_same(rt, &self.course.waits.load(Ordering::SeqCst), &0);
        let own = Events::new(self.counter, EventSet::IN);
        let noting = expect_ok(rt, make_noting(rt, own, 1, self.notes));
        expect_ok(rt, manager.add_subscriber(noting));
        let sender = Causing {
            counter: self.counter,
            notes: self.notes,
        };
        Ok(expect_ok(rt, Vec::from_array(alloc, [sender])))
    }
}

#[test]
fn a_loop_runs_behind_its_begin_and_serves_who_joined_there(rt: HostRuntime) {
    let course = Course::new();
    let parts = on_counted_table(&rt, rt.alloc(), &course);
    let notes = expect_ok(&rt, new_notes(rt.alloc()));
    let counter = expect_ok(&rt, EventFd::new(&parts.poller.poller, 0, &rt));
    let mut body = Joining {
        course: &course,
        counter: &counter,
        notes: &notes,
    };
    let ended = expect_ok(&rt, beside_senders(&rt, parts, &mut body));
    expect_same(&rt, &ended.ran, &Ok(()));
}

#[test]
fn a_loop_has_the_capacity_of_its_body_and_gives_its_poller_back(rt: HostRuntime) {
    let epoll = expect_ok(&rt, Epoll::new(rt, rt.alloc()));
    let event_fd = expect_ok(&rt, EventFd::new(&epoll, 0, &rt));
    let other = expect_ok(&rt, event_fd.try_clone());
    let parts = Parts::new(rt.alloc(), epoll, event_fd);
    let mut body = Round {
        senders: 0,
        capacity: 0,
    };
    let ended = expect_ok(&rt, beside_senders(&rt, parts, &mut body));
    expect_same(&rt, &ended.ran, &Err(Error::Epoll(Errno::EINVAL)));
    let mut poller = ended.poller;
    expect_ok(&rt, other.write(1, &rt));
    let mut buffer = [EpollEvent::new(EventSet::empty(), 0)];
    expect_same(&rt, &poller.wait(0, &mut buffer), &Ok(1));
}

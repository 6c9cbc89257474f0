//! When the endpoint's counter is read.

use crate::expecting::{Looping, expect, expect_ok, expect_same};
use event_manager::{Error, EventOps, EventPoller, Events, MutEventSubscriber, Result};
use fixtures::parts::{Idle, Parts};
use fixtures::runs::{run_alone, run_over};
use fixtures::scripts::{script_of, script_of_words};
use std::alloc::Global;
use std::process::Abort;
use vmm_sys::epoll::{AsRawFd, ControlOperation, Epoll, EpollEvent, EventSet};
use vmm_sys::errno::Errno;
use vmm_sys::eventfd::EventFd;
use vmm_sys::poller::Poller;
use vmm_sys::script_poller::ScriptPoller;

/// A counter of this descriptor and value, in a table without descriptors so far.
fn counter_at<R: Looping + Send>(epoll: &Epoll<R>, fd: u8, value: u64, rt: &R) -> EventFd {
    for _ in 0..fd {
        expect_ok(rt, EventFd::new(epoll, 0, rt));
    }
    expect_ok(rt, EventFd::new(epoll, value, rt))
}

/// A poller of the table that a counter is in, which shows whether that counter was read: reading takes all its value.
#[derive(Drop)]
struct Probe<T> {
    poller: T,
}

impl<T: Poller> Probe<T> {
    fn new<R: Abort>(rt: &R, mut poller: T, counter: &EventFd) -> Probe<T> {
        let wanted = EpollEvent::new(EventSet::IN, 0);
        let fd = counter.as_raw_fd();
        expect_ok(rt, poller.ctl(ControlOperation::Add, fd, wanted));
        Probe { poller }
    }

    fn is_read(&mut self) -> bool {
        let mut buffer = [EpollEvent::new(EventSet::empty(), 0)];
        self.poller.wait(0, &mut buffer) == Ok(0)
    }
}

/// The parts of a manager over this script, whose endpoint has this descriptor and value 3, and what shows whether that
/// is read.
fn make_probed<R: Looping + Send>(
    rt: &R,
    alloc: Global,
    script: ScriptPoller,
    endpoint: u8,
) -> (Parts<ScriptPoller>, Probe<Epoll<R>>) {
    let epoll = expect_ok(rt, Epoll::new(*rt, alloc));
    let event_fd = counter_at(&epoll, endpoint, 3, rt);
    let probe = Probe::new(rt, epoll, &event_fd);
    (Parts::new(alloc, script, event_fd), probe)
}

/// Whether the endpoint of this descriptor is read by this run over the script, of a manager without subscribers.
fn is_read_by<R: Looping + Send>(
    rt: &R,
    alloc: Global,
    script: ScriptPoller,
    endpoint: u8,
    run: Result<usize>,
) -> bool {
    let (parts, mut probe) = make_probed(rt, alloc, script, endpoint);
    expect_ok(
        rt,
        run_over::<Idle, _, R>(rt, parts, Vec::new(alloc), &[run]),
    );
    probe.is_read()
}

/// Notes at its event whether the endpoint was read by then.
#[derive(Drop)]
struct Looking<T> {
    probe: Probe<T>,
    own: Events,
    was_read: Option<bool>,
}

impl<T: Poller> MutEventSubscriber for Looking<T> {
    ghost use Rattle.std.specs.Prelude.{◌≡◌, []};
    ghost use Rattle.event_manager.specs.Exchange.{AsksToAdd};

    ghost begins = { λ v exchanges w. AsksToAdd v.own exchanges };

    ghost serves = { λ v event exchanges w. exchanges ≡ [] };

    fn process<P: EventPoller>(&mut self, _events: Events, _ops: &mut EventOps<P>) {
        self.was_read = Some(self.probe.is_read());
    }

    fn init<P: EventPoller>(&mut self, ops: &mut EventOps<P>) {
        let _ = ops.add(self.own);
    }
}

/// Expects that the endpoint of this descriptor is read, or not, by a run that reports these words, each with this set.
fn expect_read<R: Looping + Send>(
    rt: &R,
    alloc: Global,
    endpoint: u8,
    set: EventSet,
    words: &[u64],
    expected: bool,
) {
    let script = expect_ok(rt, script_of_words(alloc, set, words));
    let is_read = is_read_by(rt, alloc, script, endpoint, Ok(words.len()));
    assert!(rt;
        is_read == expected,
        "{words:?} with {set:?} beside {endpoint}"
    );
}

#[test]
fn endpoint_is_read_after_a_batch_with_its_entry(rt: HostRuntime) {
    let data = 7 << 32;
    let batches: [&[u64]; 6] = [&[2], &[2, 3], &[3, 2], &[3, 2, 4], &[2, 2], &[3, data + 2]];
    for set in [EventSet::IN, EventSet::OUT, EventSet::empty()] {
        for words in batches {
            expect_read(&rt, rt.alloc(), 2, set, words, true);
        }
    }
}

#[test]
fn endpoint_is_left_after_a_batch_without_its_entry(rt: HostRuntime) {
    let data = 2 << 32;
    let batches: [&[u64]; 4] = [&[], &[3], &[3, 4], &[data + 3]];
    for endpoint in [0, 2] {
        for words in batches {
            expect_read(&rt, rt.alloc(), endpoint, EventSet::IN, words, false);
        }
    }
}

#[test]
fn endpoint_is_left_where_the_wait_is_refused(rt: HostRuntime) {
    let answers = [
        (Errno::EINTR, Ok(0)),
        (Errno::EBADF, Err(Error::Epoll(Errno::EBADF))),
    ];
    for (errno, answer) in answers {
        let mut script = ScriptPoller::new(rt.alloc());
        expect_ok(&rt, script.push_fault(errno));
        let is_read = is_read_by(&rt, rt.alloc(), script, 2, answer);
        expect_same(&rt, &(errno, is_read), &(errno, false));
    }
}

#[test]
fn endpoint_is_read_after_the_deliveries(rt: HostRuntime) {
    let script = expect_ok(&rt, script_of(rt.alloc(), &[2, 3, 2]));
    let (parts, probe) = make_probed(&rt, rt.alloc(), script, 2);
    let own = Events::new_raw(3, EventSet::IN);
    let looking = Looking {
        probe,
        own,
        was_read: None,
    };
    let mut looking = expect_ok(&rt, run_alone(&rt, parts, looking, &[Ok(3)]));
    expect_same(&rt, &looking.was_read, &Some(false));
    expect(&rt, looking.probe.is_read());
}

//! A channel over a counter of a table, and the table's poller, which watches the receiver.

use crate::expecting::{expect_ok, expect_same};
use crate::host::Looping;
use channels::{Receiver, Refusal, SendError, Sender, channel, sync_channel};
use std::alloc::AllocError;
use std::process::Abort;
use std::time::{Clock, Duration, Instant};
use vmm_sys::epoll::{AsRawFd, ControlOperation, Epoll, EpollEvent, EventSet};
use vmm_sys::eventfd::EventFd;
use vmm_sys::poller::Poller;

/// How many milliseconds a wait may last.
const PATIENCE: i32 = 5_000;

/// What a descriptor is added with, and reported with.
fn interest() -> EpollEvent {
    EpollEvent::new(EventSet::IN, 7)
}

/// A poller over a new table.
pub fn open_poller<R: Looping>(rt: &R) -> Epoll<R> {
    expect_ok(rt, Epoll::new(*rt, rt.alloc()))
}

/// A new counter of this value.
pub fn open_counter<R: Looping>(rt: &R, epoll: &Epoll<R>, value: u64) -> EventFd {
    expect_ok(rt, EventFd::new(epoll, value, rt))
}

/// Adds a descriptor.
pub fn watch<D: AsRawFd, R: Looping>(rt: &R, epoll: &mut Epoll<R>, descriptor: &D) {
    let fd = descriptor.as_raw_fd();
    expect_ok(rt, epoll.ctl(ControlOperation::Add, fd, interest()));
}

/// The receiver, another handle on its counter, and the poller.
#[derive(Drop)]
pub struct Watched<R> {
    pub epoll: Epoll<R>,
    pub counter: EventFd,
    pub receiver: Receiver<u64>,
}

/// A channel without a bound, over a counter of this value.
pub fn open<R: Looping>(rt: R, value: u64) -> (Sender<u64>, Watched<R>) {
    let (epoll, counter, theirs) = counter_of(&rt, value);
    make_watched(&rt, epoll, counter, channel(theirs, rt.alloc()))
}

/// A channel with room for `most` messages.
pub fn open_with_room<R: Looping>(rt: R, most: usize) -> (Sender<u64>, Watched<R>) {
    let (epoll, counter, theirs) = counter_of(&rt, 0);
    let made = sync_channel(theirs, most, rt.alloc());
    make_watched(&rt, epoll, counter, made)
}

/// A counter of a new table, by two handles.
fn counter_of<R: Looping>(rt: &R, value: u64) -> (Epoll<R>, EventFd, EventFd) {
    let epoll = open_poller(rt);
    let counter = open_counter(rt, &epoll, value);
    let other = expect_ok(rt, counter.try_clone());
    (epoll, counter, other)
}

fn make_watched<R: Looping>(
    rt: &R,
    epoll: Epoll<R>,
    counter: EventFd,
    made: Result<(Sender<u64>, Receiver<u64>), AllocError>,
) -> (Sender<u64>, Watched<R>) {
    let mut epoll = epoll;
    let (sender, receiver) = expect_ok(rt, made);
    watch(rt, &mut epoll, &receiver);
    let watched = Watched {
        epoll,
        counter,
        receiver,
    };
    (sender, watched)
}

impl<R: Looping> Watched<R> {
    /// Expects that the poller reports the receiver, or nothing.
    pub fn expect_ready(&mut self, rt: &R, is_ready: bool) {
        expect_same(rt, &is_reported(rt, &mut self.epoll, 0), &is_ready);
    }

    /// Waits until the receiver is ready. Ends the test where that takes too long.
    pub fn wait(&mut self, rt: &R) {
        wait_for(rt, &mut self.epoll, "a message");
    }

    /// Expects that these messages are taken.
    pub fn expect_taken(&mut self, rt: &R, expected: &[u64]) {
        let mut list = Vec::new(rt.alloc());
        expect_ok(rt, self.receiver.take(&mut list, rt));
        expect_same(rt, &list.as_slice(), &expected);
    }
}

/// Whether a wait of at most `ms` milliseconds reports what was added.
pub fn is_reported<R: Looping>(rt: &R, epoll: &mut Epoll<R>, ms: i32) -> bool {
    let mut buffer = [EpollEvent::new(EventSet::empty(), 0)];
    let count = expect_ok(rt, epoll.wait(ms, &mut buffer));
    if count > 0 {
        expect_same(rt, &buffer, &[interest()]);
    }
    count > 0
}

/// Waits until what was added is ready. Ends the test where that takes too long.
pub fn wait_for<R: Looping>(rt: &R, epoll: &mut Epoll<R>, what: &str) {
    let begin = time(rt);
    for _wait in rt.forever() {
        let is_ready = is_reported(rt, epoll, PATIENCE);
        let lasted = time(rt).saturating_duration_since(begin);
        let most = Duration::from_millis(PATIENCE as u64);
        assert!(rt; lasted < most, "nothing tells of {what}");
        // A wait may end before its limit, with nothing.
        if is_ready {
            break;
        }
    }
}

/// What time it is.
pub fn time<R: Clock + Abort>(rt: &R) -> Instant {
    Instant::now(rt).expect(rt, "the clock is read")
}

/// Sends these messages.
pub fn send_all<R: Looping>(rt: &R, sender: &Sender<u64>, messages: &[u64]) {
    for message in messages {
        expect_same(rt, &sender.send(*message, rt), &Ok(()));
    }
}

/// Expects that a send of this message is refused, and why; the message comes back.
pub fn expect_refused<R: Looping>(rt: &R, sender: &Sender<u64>, message: u64, why: Refusal) {
    expect_same(
        rt,
        &sender.send(message, rt),
        &Err(SendError { why, message }),
    );
}

/// Another sender.
pub fn another<R: Looping>(rt: &R, sender: &Sender<u64>) -> Sender<u64> {
    expect_ok(rt, sender.try_clone(rt))
}

/// Closes a sender.
pub fn close<R: Looping>(rt: &R, sender: Sender<u64>) {
    expect_same(rt, &sender.close(rt).is_ok(), &true);
}

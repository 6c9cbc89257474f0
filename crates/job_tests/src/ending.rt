//! A loop and its senders, looked at from outside with a bound, and a poller whose waits have one.

use crate::expecting::{Host, Looping};
use event_manager::{
    Counter, Ended, EventPoller, Events, Job, JobSender, LoopWithSenders, MutEventSubscriber,
    Result, with_senders,
};
use fixtures::parts::Parts;
use fixtures::waits::{LOOKS, holds_within};
use std::sync::atomic::{AtomicBool, AtomicU64, Ordering};
use std::thread;
use vmm_sys::epoll::{ControlOperation, EpollEvent};
use vmm_sys::errno::Errno;

/// How many looks at a loop are made for each that a thread of it may make.
const PATIENCE: u32 = 2;

/// Looks on until it is over. Ends the test where it lasts too long.
fn look_on<R: Looping>(rt: &R, is_over: &AtomicBool) {
    let looks = LOOKS.saturating_mul(PATIENCE);
    let has_ended = holds_within(rt, looks, || is_over.load(Ordering::SeqCst));
    assert!(rt; has_ended, "a loop and its senders do not end");
}

/// As [`with_senders`] over these parts. Ends the test where that doesn't end.
pub fn beside_senders<S, J, P, C, B, Q, T, R>(
    rt: &R,
    parts: Parts<P, C>,
    body: &mut B,
) -> Result<Ended<S, T, P>>
where
    S: MutEventSubscriber + Send + Drop,
    J: Job<S> + Send,
    J::Reply: Send,
    P: EventPoller + Send + Drop,
    C: Counter + Send + Sync + Drop,
    B: LoopWithSenders<S, J, Q, R> + Send,
    Q: JobSender<S, J, T, R> + Send + Drop,
    T: Send + Drop,
    R: Host,
{
    let Parts {
        alloc,
        poller,
        counter,
        ..
    } = parts;
    let is_over = AtomicBool::new(false);
    let ((), ended) = thread::join(
        rt,
        || look_on(rt, &is_over),
        || {
            let ended = with_senders(rt, alloc, poller, counter, body);
            is_over.store(true, Ordering::SeqCst);
            ended
        },
    );
    ended
}

/// How many milliseconds a wait without a limit lasts at most in these tests.
const MOST_TIME: i32 = 10_000;

/// How far a loop and its senders are.
#[derive(Drop)]
pub struct Course {
    /// How many waits the loop has begun.
    pub waits: AtomicU64,
    /// How many senders have begun.
    pub begun: AtomicU64,
    /// How many senders are about to end.
    pub ending: AtomicU64,
}

impl Course {
    pub fn new() -> Self {
        Course {
            waits: AtomicU64::new(0),
            begun: AtomicU64::new(0),
            ending: AtomicU64::new(0),
        }
    }
}

/// A poller that counts its waits, and refuses one without a limit that nobody ends.
#[derive(Drop)]
pub struct Counted<'a, P> {
    pub poller: P,
    pub course: &'a Course,
}

impl<P: EventPoller> EventPoller for Counted<'_, P> {
    ghost controls = { λ v op fd event answer w. Unit {0} };

    ghost waits = { λ v ms capacity answer w. Unit {0} };

    fn control(
        &mut self,
        op: ControlOperation,
        fd: u32,
        event: Events,
    ) -> std::result::Result<(), Errno> {
        self.poller.control(op, fd, event)
    }

    fn poll(&mut self, ms: i32, buffer: &mut [EpollEvent]) -> std::result::Result<usize, Errno> {
        self.course.waits.fetch_add(1, Ordering::SeqCst);
        if ms >= 0 {
            return self.poller.poll(ms, buffer);
        }
        match self.poller.poll(MOST_TIME, buffer) {
            Ok(0) => Err(Errno::EAGAIN),
            answer => answer,
        }
    }
}

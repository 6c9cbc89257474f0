//! Timers of a poller, opened and copied, by clocks that stand still.

use crate::again;
use crate::descriptors::{
    copy_counter, copy_epoll, event_of, is_unopened, is_unregistered, open_counter, open_epoll,
};
use crate::expecting::{Host, expect_ok, expect_same, mark};
use std::alloc::Global;
use std::io;
use std::sync::Wait;
use std::time::{Clock, Duration};
use timerfd::{TimedPoller, TimerFd};
use vmm_sys::epoll::{AsRawFd, ControlOperation, Epoll, RawFd};
use vmm_sys::errno::Errno;
use vmm_sys::eventfd::EventFd;
use vmm_sys::poller::Poller;

/// What the poller's clock shows, in nanoseconds.
const LATER: u64 = 10;

/// A runtime whose clock stands still: nobody looks at the runtime's own for it.
#[derive(Clone, Copy, Drop)]
struct Stopped<R> {
    time: Duration,
    rt: R,
}

impl<R: Wait> Wait for Stopped<R> {}

impl<R> Clock for Stopped<R> {
    fn monotonic(&self) -> io::Result<Duration> {
        Ok(self.time)
    }

    fn since_1970(&self) -> io::Result<Duration> {
        Ok(self.time)
    }
}

/// The runtime, stopped at this time.
fn stopped_at<R: Copy>(rt: &R, nanoseconds: u64) -> Stopped<R> {
    Stopped {
        time: Duration::from_nanos(nanoseconds),
        rt: *rt,
    }
}

/// A poller with timers over a table.
type Timed<R> = TimedPoller<Epoll<R>, Stopped<R>>;

/// One over this table, made once.
fn make_once<R: Host>(
    rt: &R,
    alloc: Global,
    epoll: &Epoll<R>,
    counter: &EventFd,
) -> Result<Timed<R>, Errno> {
    let poller = copy_epoll(rt, epoll);
    let counter = copy_counter(rt, counter);
    TimedPoller::new(poller, counter, stopped_at(rt, LATER), alloc)
}

/// One over a new table. A refused one must have left its counter unregistered.
fn make_timed<R: Host>(rt: &R, alloc: Global) -> Timed<R> {
    let mut epoll = open_epoll(rt, alloc);
    let counter = open_counter(rt, &mut epoll, 0);
    again!(
        rt,
        "TimedPoller::new",
        make_once(rt, alloc, &epoll, &counter),
        is_unregistered(&mut epoll, 0)
    )
}

/// Opens a timer, whose descriptor must be this one; before that it is no number of an open one.
fn open_timer<R: Host>(rt: &R, timed: &mut Timed<R>, fd: RawFd) -> TimerFd {
    let call = "TimerFd::new";
    let timer = again!(rt, call, TimerFd::new(&*timed, rt), is_unopened(timed, fd));
    expect_same(rt, call, &timer.as_raw_fd(), &fd);
    expect_same(rt, call, &is_unregistered(timed, fd), &true);
    timer
}

/// Makes the calls of a timer that take no memory: it is due at 1 and then ten times up to what the poller's clock shows.
fn use_timer<R: Host>(rt: &R, timed: &mut Timed<R>, timer: &TimerFd) {
    let event = event_of(timer.as_raw_fd());
    let (early, one) = (stopped_at(rt, 0), Duration::from_nanos(1));
    let mut buffer = [event_of(0)];
    mark(rt);
    let added = timed.ctl(ControlOperation::Add, timer.as_raw_fd(), event);
    let armed = timer.reset(one, Some(one), &early);
    let waited = timed.wait(0, &mut buffer);
    let taken = timer.wait(&early);
    let is_armed = timer.is_armed(&early);
    let cleared = timer.clear(&early);
    mark(rt);
    let call = "the calls of a timer";
    expect_same(rt, call, &[added, armed, cleared], &[Ok(()); 3]);
    expect_same(rt, call, &(waited, buffer), &(Ok(1), [event]));
    expect_same(rt, call, &(taken, is_armed), &(Ok(LATER), Ok(true)));
}

/// Opens nine timers, the last by the one before, and answers it.
fn open_all<R: Host>(rt: &R, timed: &mut Timed<R>) -> TimerFd {
    for k in 0..7u16 {
        open_timer(rt, timed, RawFd::MAX - k as RawFd);
    }
    let timer = open_timer(rt, timed, 2147483640);
    let call = "TimerFd::open_another";
    let other = again!(
        rt,
        call,
        timer.open_another(rt),
        is_unopened(timed, 2147483639)
    );
    expect_same(rt, call, &other.as_raw_fd(), &2147483639);
    other
}

#[test]
fn timers_are_opened_copied_and_used(rt: HostRuntime) {
    let mut timed = make_timed(&rt, rt.alloc());
    let last = open_all(&rt, &mut timed);
    mark(&rt);
    let copied = last.try_clone();
    mark(&rt);
    let copy = expect_ok(&rt, "TimerFd::try_clone", copied);
    expect_same(&rt, "TimerFd::try_clone", &copy.as_raw_fd(), &2147483639);
    use_timer(&rt, &mut timed, &copy);
    mark(&rt);
    copy.close(&rt);
    last.close(&rt);
    mark(&rt);
    let is_closed = is_unopened(&mut timed, 2147483639);
    expect_same(&rt, "TimerFd::close", &is_closed, &true);
}

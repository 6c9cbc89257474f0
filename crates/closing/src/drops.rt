//! What a drop closes, and what it doesn't.

use crate::closing::Closing;
use channels::{Refusal, channel};
use std::process::Abort;
use std::sync::Wait;
use std::time::Clock;
use timerfd::{TimedPoller, TimerFd};
use vmm_sys::epoll::{AsRawFd, Epoll, RawFd};
use vmm_sys::errno::Errno;
use vmm_sys::eventfd::EventFd;
use vmm_sys::line::Line;

/// A counter of this table.
fn open<R: Wait + Clock + Abort + Copy + Send + Drop>(rt: &R, epoll: &Epoll<R>) -> EventFd {
    EventFd::new(epoll, 0, rt).expect(rt, "a counter")
}

/// Expects that what is opened next has this number.
fn expect_next_is<R: Wait + Clock + Abort + Copy + Send + Drop>(
    rt: &R,
    epoll: &Epoll<R>,
    fd: RawFd,
) {
    let next = open(rt, epoll);
    assert_eq!(rt; &next.as_raw_fd(), &fd);
    next.close(rt);
}

/// Refused behind the opening of a counter that closes.
fn open_and_fail<R: Wait + Clock + Abort + Copy + Send + Drop>(
    rt: &R,
    epoll: &Epoll<R>,
) -> Result<RawFd, Errno> {
    let counter = Closing::new(open(rt, epoll), *rt);
    counter.end.write(u64::MAX, rt)?;
    Ok(counter.as_raw_fd())
}

#[test]
fn a_dropped_counter_gives_its_number_back(rt: HostRuntime) {
    let epoll = Epoll::new(rt, rt.alloc()).expect(&rt, "a table");
    assert_eq!(rt; &open_and_fail(&rt, &epoll), &Err(Errno::EINVAL));
    expect_next_is(&rt, &epoll, 0);
}

#[test]
fn a_dropped_line_gives_its_number_back(rt: HostRuntime) {
    let epoll = Epoll::new(rt, rt.alloc()).expect(&rt, "a table");
    let line = Line::new(&epoll, &rt).expect(&rt, "a line");
    drop(Closing::new(line, rt));
    expect_next_is(&rt, &epoll, 0);
}

#[test]
fn a_dropped_timer_gives_its_number_back(rt: HostRuntime) {
    let epoll = Epoll::new(rt, rt.alloc()).expect(&rt, "a table");
    let alarm = open(&rt, &epoll);
    let timed = TimedPoller::new(epoll, alarm, rt, rt.alloc()).expect(&rt, "a poller");
    let first = TimerFd::new(&timed, &rt).expect(&rt, "a timer");
    let fd = first.as_raw_fd();
    drop(Closing::new(first, rt));
    let next = TimerFd::new(&timed, &rt).expect(&rt, "a timer");
    assert_eq!(rt; &next.as_raw_fd(), &fd);
}

#[test]
fn a_receiver_is_over_once_its_senders_are_dropped(rt: HostRuntime) {
    let epoll = Epoll::new(rt, rt.alloc()).expect(&rt, "a table");
    let made = channel::<u64, EventFd>(open(&rt, &epoll), rt.alloc());
    let (sender, mut receiver) = made.expect(&rt, "a channel");
    let sender = Closing::new(sender, rt);
    assert_eq!(rt; &sender.end.send(5, &rt).is_ok(), &true);
    drop(sender);
    assert_eq!(rt; &receiver.is_over(&rt), &false);
    assert_eq!(rt; &receiver.recv(&rt), &Some(5));
    assert_eq!(rt; &receiver.is_over(&rt), &true);
}

#[test]
fn a_sender_is_refused_once_its_receiver_is_dropped(rt: HostRuntime) {
    let epoll = Epoll::new(rt, rt.alloc()).expect(&rt, "a table");
    let made = channel::<u64, EventFd>(open(&rt, &epoll), rt.alloc());
    let (sender, receiver) = made.expect(&rt, "a channel");
    drop(Closing::new(receiver, rt));
    let refused = sender.send(5, &rt).err().map(|refused| refused.why);
    assert_eq!(rt; &refused, &Some(Refusal::Closed));
}

#[test]
fn what_is_taken_out_stays_open(rt: HostRuntime) {
    let epoll = Epoll::new(rt, rt.alloc()).expect(&rt, "a table");
    let counter = Closing::new(open(&rt, &epoll), rt).into_inner();
    expect_next_is(&rt, &epoll, 1);
    counter.close(&rt);
    expect_next_is(&rt, &epoll, 0);
}

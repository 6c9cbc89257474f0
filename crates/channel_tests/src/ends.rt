//! What becomes of one end where the other closes, or is dropped.

use crate::expecting::{expect_ok, expect_same};
use crate::host::Looping;
use crate::watched::{another, close, expect_refused, open, open_counter, open_poller, send_all};
use channels::{Receiver, Refusal, Sender, channel};
use vmm_sys::epoll::{AsRawFd, Epoll, RawFd};
use vmm_sys::errno::Errno;

#[test]
fn a_close_of_the_receiver_hands_out_what_waits(rt: HostRuntime) {
    let (sender, watched) = open(rt, 0);
    send_all(&rt, &sender, &[5, 6, 7]);
    let waiting = watched.receiver.close(&rt);
    expect_same(&rt, &waiting.as_slice(), &[5, 6, 7].as_slice());
    expect_same(&rt, &watched.counter.read(&rt), &Err(Errno::EAGAIN));
    for message in [8, 9] {
        expect_refused(&rt, &sender, message, Refusal::Closed);
    }
    expect_same(&rt, &watched.counter.read(&rt), &Err(Errno::EAGAIN));
}

#[test]
fn it_is_over_once_all_senders_have_closed(rt: HostRuntime) {
    let (sender, mut watched) = open(rt, 0);
    let other = another(&rt, &sender);
    close(&rt, sender);
    expect_same(&rt, &watched.receiver.is_over(&rt), &false);
    watched.expect_ready(&rt, false);
    close(&rt, other);
    for _look in 0..2 {
        expect_same(&rt, &watched.receiver.is_over(&rt), &true);
        watched.expect_ready(&rt, true);
        expect_same(&rt, &watched.receiver.recv(&rt), &None);
        watched.expect_taken(&rt, &[]);
    }
}

#[test]
fn messages_that_wait_come_before_the_end(rt: HostRuntime) {
    let (sender, mut watched) = open(rt, 0);
    send_all(&rt, &sender, &[5, 6]);
    close(&rt, sender);
    for message in [5, 6] {
        expect_same(&rt, &watched.receiver.is_over(&rt), &false);
        watched.expect_ready(&rt, true);
        expect_same(&rt, &watched.receiver.recv(&rt), &Some(message));
    }
    expect_same(&rt, &watched.receiver.is_over(&rt), &true);
    watched.expect_ready(&rt, true);
}

#[test]
fn a_sender_that_is_only_dropped_ends_nothing(rt: HostRuntime) {
    let (sender, mut watched) = open(rt, 0);
    drop(another(&rt, &sender));
    send_all(&rt, &sender, &[5]);
    close(&rt, sender);
    watched.expect_taken(&rt, &[5]);
    expect_same(&rt, &watched.receiver.is_over(&rt), &false);
    watched.expect_ready(&rt, false);
}

#[test]
fn a_receiver_that_is_only_dropped_refuses_nothing(rt: HostRuntime) {
    let (sender, watched) = open(rt, 0);
    drop(watched.receiver);
    send_all(&rt, &sender, &[5]);
    close(&rt, sender);
}

#[test]
fn the_last_end_that_closes_closes_the_counter(rt: HostRuntime) {
    let epoll = open_poller(&rt);
    let (sender, receiver) = open_first(&rt, &epoll);
    close(&rt, sender);
    expect_next_is(&rt, &epoll, 1);
    expect_same(&rt, &receiver.close(&rt).as_slice(), &[].as_slice());
    expect_next_is(&rt, &epoll, 0);
    let (sender, receiver) = open_first(&rt, &epoll);
    drop(receiver);
    close(&rt, another(&rt, &sender));
    expect_next_is(&rt, &epoll, 1);
    close(&rt, sender);
    expect_next_is(&rt, &epoll, 0);
}

#[test]
fn a_last_end_that_is_only_dropped_leaves_the_counter_open(rt: HostRuntime) {
    let epoll = open_poller(&rt);
    let (sender, receiver) = open_first(&rt, &epoll);
    close(&rt, sender);
    drop(receiver);
    expect_next_is(&rt, &epoll, 1);
}

// A channel whose counter has descriptor 0.
fn open_first<R: Looping>(rt: &R, epoll: &Epoll<R>) -> (Sender<u64>, Receiver<u64>) {
    let counter = open_counter(rt, epoll, 0);
    expect_same(rt, &counter.as_raw_fd(), &0);
    expect_ok(rt, channel(counter, rt.alloc()))
}

// The descriptor that is given next, and closed again.
pub fn expect_next_is<R: Looping>(rt: &R, epoll: &Epoll<R>, fd: RawFd) {
    let next = open_counter(rt, epoll, 0);
    expect_same(rt, &next.as_raw_fd(), &fd);
    next.close(rt);
}

//! When the counter is rung and cleared, and what a full one refuses.

use crate::expecting::expect_same;
use crate::watched::{close, expect_refused, open, send_all};
use channels::Refusal;
use vmm_sys::errno::Errno;

/// The highest value of a counter.
const HIGHEST: u64 = 18446744073709551614;

/// Why a ring of a full counter is refused.
const FULL: Refusal = Refusal::EventFd(Errno::EAGAIN);

#[test]
fn a_receiver_is_ready_exactly_while_messages_wait(rt: HostRuntime) {
    let (sender, mut watched) = open(rt, 0);
    for _round in 0..2 {
        watched.expect_ready(&rt, false);
        send_all(&rt, &sender, &[5, 6]);
        watched.expect_ready(&rt, true);
        expect_same(&rt, &watched.receiver.recv(&rt), &Some(5));
        watched.expect_ready(&rt, true);
        expect_same(&rt, &watched.receiver.recv(&rt), &Some(6));
        watched.expect_ready(&rt, false);
        send_all(&rt, &sender, &[7]);
        watched.expect_ready(&rt, true);
        watched.expect_taken(&rt, &[7]);
    }
    watched.expect_ready(&rt, false);
}

#[test]
fn a_batch_rings_once(rt: HostRuntime) {
    let (sender, mut watched) = open(rt, 0);
    for message in 0..1000 {
        send_all(&rt, &sender, &[message]);
    }
    expect_same(&rt, &watched.counter.read(&rt), &Ok(1));
    expect_same(&rt, &watched.receiver.recv(&rt), &Some(0));
    send_all(&rt, &sender, &[1000]);
    expect_same(&rt, &watched.counter.read(&rt), &Err(Errno::EAGAIN));
}

#[test]
fn a_full_counter_refuses_a_first_message(rt: HostRuntime) {
    let (sender, mut watched) = open(rt, HIGHEST);
    for message in [5, 6] {
        expect_refused(&rt, &sender, message, FULL);
        expect_same(&rt, &watched.receiver.pending(), &Some(0));
    }
    expect_same(&rt, &watched.counter.read(&rt), &Ok(HIGHEST));
    send_all(&rt, &sender, &[7]);
    watched.expect_taken(&rt, &[7]);
}

#[test]
fn a_full_counter_refuses_no_message_behind_another(rt: HostRuntime) {
    let (sender, mut watched) = open(rt, 0);
    send_all(&rt, &sender, &[5]);
    expect_same(&rt, &watched.counter.write(HIGHEST - 1, &rt), &Ok(()));
    send_all(&rt, &sender, &[6, 7]);
    watched.expect_taken(&rt, &[5, 6, 7]);
    watched.expect_ready(&rt, false);
}

#[test]
fn a_full_counter_refuses_the_last_close(rt: HostRuntime) {
    let (sender, watched) = open(rt, HIGHEST);
    let Err(refused) = sender.close(&rt) else {
        panic!(rt; "a full counter agrees to a close");
    };
    expect_same(&rt, &refused.errno, &Errno::EAGAIN);
    expect_same(&rt, &watched.receiver.is_over(&rt), &false);
    expect_same(&rt, &watched.counter.read(&rt), &Ok(HIGHEST));
    close(&rt, refused.sender);
    expect_same(&rt, &watched.receiver.is_over(&rt), &true);
}

//! In which order messages come out, and how many wait.

use crate::expecting::{expect_ok, expect_same};
use crate::watched::{another, close, open, send_all};

#[test]
fn a_take_puts_messages_behind_what_the_list_has(rt: HostRuntime) {
    let (sender, mut watched) = open(rt, 0);
    send_all(&rt, &sender, &[5, 6]);
    let mut list = expect_ok(&rt, vec![in rt.alloc(); 9]);
    expect_ok(&rt, watched.receiver.take(&mut list, &rt));
    expect_same(&rt, &list.as_slice(), &[9, 5, 6].as_slice());
    watched.expect_taken(&rt, &[]);
}

#[test]
fn messages_are_received_in_the_order_in_which_they_were_sent(rt: HostRuntime) {
    let (sender, mut watched) = open(rt, 0);
    send_all(&rt, &sender, &[5, 6, 7]);
    for message in [Some(5), Some(6), Some(7), None] {
        expect_same(&rt, &watched.receiver.recv(&rt), &message);
    }
}

#[test]
fn a_take_goes_on_behind_a_recv(rt: HostRuntime) {
    let (sender, mut watched) = open(rt, 0);
    let other = another(&rt, &sender);
    send_all(&rt, &sender, &[5, 6]);
    expect_same(&rt, &watched.receiver.recv(&rt), &Some(5));
    send_all(&rt, &other, &[7]);
    send_all(&rt, &sender, &[8]);
    watched.expect_taken(&rt, &[6, 7, 8]);
}

#[test]
fn each_call_leaves_the_lock_free(rt: HostRuntime) {
    let (sender, mut watched) = open(rt, 0);
    expect_same(&rt, &watched.receiver.pending(), &Some(0));
    send_all(&rt, &sender, &[5]);
    expect_same(&rt, &watched.receiver.pending(), &Some(1));
    let other = another(&rt, &sender);
    expect_same(&rt, &watched.receiver.pending(), &Some(1));
    close(&rt, other);
    expect_same(&rt, &watched.receiver.pending(), &Some(1));
    expect_same(&rt, &watched.receiver.is_over(&rt), &false);
    expect_same(&rt, &watched.receiver.pending(), &Some(1));
    expect_same(&rt, &watched.receiver.recv(&rt), &Some(5));
    expect_same(&rt, &watched.receiver.pending(), &Some(0));
    watched.expect_taken(&rt, &[]);
    expect_same(&rt, &watched.receiver.pending(), &Some(0));
}

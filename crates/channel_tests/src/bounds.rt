//! Channels with a bound.

use crate::expecting::expect_same;
use crate::watched::{expect_refused, open_with_room, send_all};
use channels::Refusal;

#[test]
fn a_full_channel_refuses_a_message_until_one_is_received(rt: HostRuntime) {
    let (sender, mut watched) = open_with_room(rt, 2);
    send_all(&rt, &sender, &[5, 6]);
    expect_refused(&rt, &sender, 7, Refusal::Full);
    expect_same(&rt, &watched.receiver.recv(&rt), &Some(5));
    send_all(&rt, &sender, &[8]);
    expect_refused(&rt, &sender, 9, Refusal::Full);
    watched.expect_taken(&rt, &[6, 8]);
    send_all(&rt, &sender, &[10, 11]);
    expect_refused(&rt, &sender, 12, Refusal::Full);
}

#[test]
fn a_channel_with_no_room_refuses_each_message(rt: HostRuntime) {
    let (sender, mut watched) = open_with_room(rt, 0);
    for message in [5, 6] {
        expect_refused(&rt, &sender, message, Refusal::Full);
        watched.expect_ready(&rt, false);
    }
}

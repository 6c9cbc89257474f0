//! Channels of messages: made, sent to, copied and taken from.

use crate::again;
use crate::descriptors::{copy_counter, open_counter, open_epoll};
use crate::expecting::{Host, Looping, expect_ok, expect_same, mark};
use channels::{
    Receiver, Refusal, SendError, Sender, TrackedReceiver, TrackedSender, channel, sync_channel,
    sync_channel_with_room,
};
use std::alloc::Global;
use vmm_sys::errno::Errno;
use vmm_sys::eventfd::EventFd;

/// How many messages are sent.
const MESSAGES: usize = 9;

/// Sends a number, which comes back where it is refused.
fn send<R: Looping>(rt: &R, sender: &Sender<usize>, number: usize) -> Result<(), Refusal> {
    match sender.send(number, rt) {
        Ok(()) => Ok(()),
        Err(SendError { why, message }) => {
            expect_same(rt, "Sender::send", &message, &number);
            Err(why)
        }
    }
}

/// Sends the numbers from 1 up, and takes them.
fn send_and_take<R: Looping>(
    rt: &R,
    alloc: Global,
    sender: &Sender<usize>,
    receiver: &mut Receiver<usize>,
) {
    for before in 0..MESSAGES {
        again!(
            rt,
            "Sender::send",
            send(rt, sender, before + 1),
            receiver.pending() == Some(before)
        );
    }
    let mut taken = Vec::new(alloc);
    again!(
        rt,
        "Receiver::take",
        receiver.take(&mut taken, rt),
        taken.is_empty() && receiver.pending() == Some(MESSAGES)
    );
    let numbers = [1, 2, 3, 4, 5, 6, 7, 8, 9];
    expect_same(rt, "Receiver::take", &taken.as_slice(), &numbers.as_slice());
}

#[test]
fn messages_are_sent_and_taken(rt: HostRuntime) {
    let mut epoll = open_epoll(&rt, rt.alloc());
    let counter = open_counter(&rt, &mut epoll, 0);
    let (sender, mut receiver) = again!(
        &rt,
        "channel",
        channel(copy_counter(&rt, &counter), rt.alloc())
    );
    send_and_take(&rt, rt.alloc(), &sender, &mut receiver);
    mark(&rt);
    let copied = sender.try_clone(&rt);
    mark(&rt);
    expect_ok(&rt, "Sender::try_clone", copied);
}

/// Sends a number by a tracked sender, as [`send`].
fn send_tracked<R: Looping>(
    rt: &R,
    sender: &mut TrackedSender<usize>,
    number: usize,
) -> Result<(), Refusal> {
    match sender.send(number, rt) {
        Ok(()) => Ok(()),
        Err(SendError { why, message }) => {
            expect_same(rt, "TrackedSender::send", &message, &number);
            Err(why)
        }
    }
}

#[test]
fn messages_pass_tracked_ends(rt: HostRuntime) {
    let mut epoll = open_epoll(&rt, rt.alloc());
    let counter = open_counter(&rt, &mut epoll, 0);
    let (sender, receiver) = again!(
        &rt,
        "channel",
        channel(copy_counter(&rt, &counter), rt.alloc())
    );
    let mut sender = TrackedSender::new(sender);
    let mut receiver = TrackedReceiver::new(receiver);
    again!(
        &rt,
        "TrackedSender::send",
        send_tracked(&rt, &mut sender, 1),
        counter.read(&rt) == Err(Errno::EAGAIN)
    );
    let mut taken = Vec::new(rt.alloc());
    again!(
        &rt,
        "TrackedReceiver::take",
        receiver.take(&mut taken, &rt),
        taken.is_empty()
    );
    expect_same(
        &rt,
        "TrackedReceiver::take",
        &taken.as_slice(),
        &[1].as_slice(),
    );
}

/// A channel with room for two numbers: neither their sends nor their receipts take memory.
fn send_and_receive<R: Looping>(rt: &R, sender: &Sender<usize>, receiver: &mut Receiver<usize>) {
    mark(rt);
    let sent = [send(rt, sender, 1), send(rt, sender, 2)];
    let received = [receiver.recv(rt), receiver.recv(rt)];
    mark(rt);
    expect_same(rt, "Sender::send", &sent, &[Ok(()), Ok(())]);
    expect_same(rt, "Receiver::recv", &received, &[Some(1), Some(2)]);
}

fn make_bounded<R: Host>(
    rt: &R,
    alloc: Global,
    counter: &EventFd,
) -> (Sender<usize>, Receiver<usize>) {
    again!(
        rt,
        "sync_channel",
        sync_channel(copy_counter(rt, counter), 2, alloc)
    )
}

#[test]
fn messages_are_sent_to_a_bounded_channel(rt: HostRuntime) {
    let mut epoll = open_epoll(&rt, rt.alloc());
    let counter = open_counter(&rt, &mut epoll, 0);
    let (sender, mut receiver) = make_bounded(&rt, rt.alloc(), &counter);
    send_and_receive(&rt, &sender, &mut receiver);
}

#[test]
fn a_channel_is_made_that_tells_of_room(rt: HostRuntime) {
    let mut epoll = open_epoll(&rt, rt.alloc());
    let counter = open_counter(&rt, &mut epoll, 0);
    let room = open_counter(&rt, &mut epoll, 1);
    let (sender, mut receiver) = again!(
        &rt,
        "sync_channel_with_room",
        sync_channel_with_room(
            copy_counter(&rt, &counter),
            copy_counter(&rt, &room),
            2,
            rt.alloc(),
            &rt
        ),
        room.read(&rt) == Err(Errno::EAGAIN)
    );
    expect_same(&rt, "sync_channel_with_room", &room.read(&rt), &Ok(1));
    send_and_receive(&rt, &sender, &mut receiver);
}

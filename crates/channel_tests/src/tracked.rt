//! What ends that know their messages do.

use crate::expecting::{expect_ok, expect_same};
use crate::host::Looping;
use crate::watched::{is_reported, open_counter, open_poller, watch};
use channels::{
    Refusal, Sender, TrackedReceiver, TrackedSender, sync_channel, sync_channel_with_room,
};
use vmm_sys::epoll::{AsRawFd, Epoll};

/// Both ends of a bounded channel of numbers, and a poller that watches the receiver.
#[derive(Drop)]
struct Tracked<R> {
    epoll: Epoll<R>,
    sender: TrackedSender<u64>,
    receiver: TrackedReceiver<u64>,
}

fn open<R: Looping>(rt: R, most: usize) -> Tracked<R> {
    let mut epoll = open_poller(&rt);
    let counter = open_counter(&rt, &epoll, 0);
    let (sender, receiver) = expect_ok(&rt, sync_channel(counter, most, rt.alloc()));
    let receiver = TrackedReceiver::new(receiver);
    watch(&rt, &mut epoll, &receiver);
    Tracked {
        epoll,
        sender: TrackedSender::new(sender),
        receiver,
    }
}

#[test]
fn what_a_tracked_sender_sends_is_received(rt: HostRuntime) {
    let mut channel = open(rt, 2);
    for message in [5, 6] {
        expect_same(&rt, &channel.sender.send(message, &rt), &Ok(()));
    }
    let refused = channel.sender.send(7, &rt).err();
    let refused = refused.map(|refused| (refused.why, refused.message));
    expect_same(&rt, &refused, &Some((Refusal::Full, 7)));
    expect_same(&rt, &is_reported(&rt, &mut channel.epoll, 0), &true);
    expect_same(&rt, &channel.receiver.pending(), &Some(2));
    expect_same(&rt, &channel.receiver.recv(&rt), &Some(5));
    let mut list = expect_ok(&rt, vec![in rt.alloc(); 9]);
    expect_ok(&rt, channel.receiver.take(&mut list, &rt));
    expect_same(&rt, &list.as_slice(), &[9, 6].as_slice());
    expect_same(&rt, &channel.receiver.recv(&rt), &None);
}

#[test]
fn a_tracked_channel_ends_as_others_do(rt: HostRuntime) {
    let mut channel = open(rt, 2);
    expect_same(&rt, &channel.sender.send(5, &rt), &Ok(()));
    expect_same(&rt, &channel.sender.close(&rt).is_ok(), &true);
    expect_same(&rt, &channel.receiver.is_over(&rt), &false);
    expect_same(&rt, &channel.receiver.recv(&rt), &Some(5));
    expect_same(&rt, &channel.receiver.is_over(&rt), &true);
    expect_same(&rt, &channel.receiver.close(&rt).as_slice(), &[].as_slice());
}

#[test]
fn a_tracked_receiver_that_closes_returns_what_waits(rt: HostRuntime) {
    let mut channel = open(rt, 2);
    expect_same(&rt, &channel.sender.send(5, &rt), &Ok(()));
    expect_same(
        &rt,
        &channel.receiver.close(&rt).as_slice(),
        &[5].as_slice(),
    );
    let refused = channel.sender.send(6, &rt).err();
    expect_same(
        &rt,
        &refused.map(|refused| refused.why),
        &Some(Refusal::Closed),
    );
}

#[test]
fn a_tracked_sender_shows_its_counter_of_room(rt: HostRuntime) {
    let epoll = open_poller(&rt);
    let counter = open_counter(&rt, &epoll, 0);
    let room = open_counter(&rt, &epoll, 0);
    let fd = room.as_raw_fd();
    let made = sync_channel_with_room(counter, room, 1, rt.alloc(), &rt);
    let (sender, _receiver): (Sender<u64>, _) = expect_ok(&rt, made);
    let sender = TrackedSender::new(sender);
    expect_same(&rt, &sender.room().map(|room| room.as_raw_fd()), &Some(fd));
}

//! The counter that is ready for senders while there is room.

use crate::ends::expect_next_is;
use crate::expecting::{expect_ok, expect_same};
use crate::host::Looping;
use crate::watched::{
    close, expect_refused, is_reported, open_counter, open_poller, send_all, wait_for, watch,
};
use channels::{Receiver, Refusal, Sender, sync_channel_with_room};
use std::thread;
use vmm_sys::epoll::Epoll;
use vmm_sys::errno::Errno;
use vmm_sys::eventfd::EventFd;

/// The highest value of a counter, at which it refuses to be rung.
const HIGHEST: u64 = u64::MAX - 1;

/// How many numbers a thread sends.
const NUMBERS: u64 = 20_000;

/// A channel with a bound, another handle on its senders' counter, and a poller that watches that.
#[derive(Drop)]
struct Bounded<R> {
    epoll: Epoll<R>,
    room: EventFd,
    sender: Sender<u64>,
    receiver: Receiver<u64>,
}

/// One with room for `most` numbers, whose receiver has this counter.
fn open_over<R: Looping>(rt: R, counter: EventFd, most: usize) -> Bounded<R> {
    let mut epoll = open_poller(&rt);
    let room = open_counter(&rt, &epoll, 0);
    let theirs = expect_ok(&rt, room.try_clone());
    let made = sync_channel_with_room(counter, theirs, most, rt.alloc(), &rt);
    let (sender, receiver) = expect_ok(&rt, made);
    watch(&rt, &mut epoll, sender.room().expect(&rt, "it has one"));
    Bounded {
        epoll,
        room,
        sender,
        receiver,
    }
}

/// One whose receiver nobody watches.
fn open<R: Looping>(rt: R, most: usize) -> Bounded<R> {
    let epoll = open_poller(&rt);
    open_over(rt, open_counter(&rt, &epoll, 0), most)
}

/// Expects that the poller reports room, or nothing.
fn expect_room<R: Looping>(rt: &R, epoll: &mut Epoll<R>, is_there: bool) {
    expect_same(rt, &is_reported(rt, epoll, 0), &is_there);
}

#[test]
fn senders_are_told_exactly_while_there_is_room(rt: HostRuntime) {
    let mut channel = open(rt, 2);
    expect_room(&rt, &mut channel.epoll, true);
    send_all(&rt, &channel.sender, &[5]);
    expect_room(&rt, &mut channel.epoll, true);
    send_all(&rt, &channel.sender, &[6]);
    expect_room(&rt, &mut channel.epoll, false);
    expect_refused(&rt, &channel.sender, 7, Refusal::Full);
    expect_room(&rt, &mut channel.epoll, false);
    expect_same(&rt, &channel.receiver.recv(&rt), &Some(5));
    expect_room(&rt, &mut channel.epoll, true);
    send_all(&rt, &channel.sender, &[8]);
    expect_room(&rt, &mut channel.epoll, false);
    let mut taken = Vec::new(rt.alloc());
    expect_ok(&rt, channel.receiver.take(&mut taken, &rt));
    expect_same(&rt, &taken.as_slice(), &[6, 8].as_slice());
    expect_room(&rt, &mut channel.epoll, true);
}

#[test]
fn senders_are_told_of_a_receiver_that_closes(rt: HostRuntime) {
    let mut channel = open(rt, 1);
    send_all(&rt, &channel.sender, &[5]);
    expect_room(&rt, &mut channel.epoll, false);
    let waiting = channel.receiver.close(&rt);
    expect_same(&rt, &waiting.as_slice(), &[5].as_slice());
    expect_room(&rt, &mut channel.epoll, true);
    expect_refused(&rt, &channel.sender, 6, Refusal::Closed);
}

#[test]
fn no_room_is_none_to_be_told_of(rt: HostRuntime) {
    let mut channel = open(rt, 0);
    expect_room(&rt, &mut channel.epoll, false);
    expect_refused(&rt, &channel.sender, 5, Refusal::Full);
    expect_same(&rt, &channel.receiver.recv(&rt), &None);
    expect_room(&rt, &mut channel.epoll, false);
}

#[test]
fn a_full_counter_refuses_to_tell_of_room(rt: HostRuntime) {
    let epoll = open_poller(&rt);
    let counter = open_counter(&rt, &epoll, 0);
    let room = open_counter(&rt, &epoll, HIGHEST);
    let made = sync_channel_with_room::<u64, _, _>(counter, room, 1, rt.alloc(), &rt);
    expect_same(&rt, &made.err(), &Some(Errno::EAGAIN));
}

#[test]
fn a_refused_ring_is_made_again_at_the_next_call(rt: HostRuntime) {
    let mut channel = open(rt, 1);
    send_all(&rt, &channel.sender, &[5]);
    expect_same(&rt, &channel.room.write(HIGHEST, &rt), &Ok(()));
    expect_same(&rt, &channel.receiver.recv(&rt), &Some(5));
    expect_same(&rt, &channel.room.read(&rt), &Ok(HIGHEST));
    expect_room(&rt, &mut channel.epoll, false);
    expect_same(&rt, &channel.receiver.recv(&rt), &None);
    expect_room(&rt, &mut channel.epoll, true);
}

#[test]
fn the_last_end_closes_the_counter_of_room_too(rt: HostRuntime) {
    let Bounded {
        epoll,
        room,
        sender,
        receiver,
    } = open(rt, 1);
    room.close(&rt);
    close(&rt, sender);
    expect_next_is(&rt, &epoll, 1);
    expect_same(&rt, &receiver.close(&rt).as_slice(), &[].as_slice());
    expect_next_is(&rt, &epoll, 0);
}

/// Sends numbers from 0 up, and waits for room where there is none.
fn send_numbers<R: Looping>(rt: &R, epoll: &mut Epoll<R>, sender: &Sender<u64>) {
    for number in 0..NUMBERS {
        for _try in rt.forever() {
            if sender.send(number, rt).is_ok() {
                break;
            }
            wait_for(rt, epoll, "room");
        }
    }
}

/// Receives numbers from 0 up, and waits for each.
fn receive_numbers<R: Looping>(rt: &R, epoll: &mut Epoll<R>, receiver: &mut Receiver<u64>) {
    for number in 0..NUMBERS {
        wait_for(rt, epoll, "a message");
        expect_same(rt, &receiver.recv(rt), &Some(number));
    }
}

#[test]
fn a_sender_that_waits_for_room_misses_none(rt: HostRuntime) {
    let mut theirs = open_poller(&rt);
    let mut channel = open_over(rt, open_counter(&rt, &theirs, 0), 2);
    watch(&rt, &mut theirs, &channel.receiver);
    thread::join(
        &rt,
        || send_numbers(&rt, &mut channel.epoll, &channel.sender),
        || receive_numbers(&rt, &mut theirs, &mut channel.receiver),
    );
}

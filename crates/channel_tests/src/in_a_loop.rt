//! Subscribers of one loop that send to themselves, and to each other, while they are served.

use crate::expecting::{expect_ok, expect_same};
use crate::host::Looping;
use crate::watched::{open_counter, open_poller};
use channels::{Receiver, Sender, channel};
use event_loop::{
    EventLoop, EventOps, EventPoller, EventSet, Events, MutEventSubscriber, SubscriberOps,
};
use std::process::Abort;
use std::sync::Wait;
use std::time::Clock;
use vmm_sys::epoll::Epoll;

/// How often a loop is run at most.
const MOST_RUNS: u64 = 1000;

/// Receives a message at an event, and sends the next number on, until the last.
#[derive(Drop)]
struct Relay<R> {
    own: Events,
    receiver: Receiver<u64>,
    onward: Sender<u64>,
    last: u64,
    received: u64,
    rt: R,
}

impl<R: Looping> Relay<R> {
    fn new(rt: &R, receiver: Receiver<u64>, onward: Sender<u64>, last: u64) -> Self {
        Relay {
            own: Events::new(&receiver, EventSet::IN),
            receiver,
            onward,
            last,
            received: 0,
            rt: *rt,
        }
    }
}

impl<R: Wait + Clock> MutEventSubscriber for Relay<R> {
    ghost use Rattle.std.specs.Prelude.{◌≡◌, ◌≤◌};
    ghost use Rattle.event_loop.specs.Exchange.{AsksNothing, AsksToAdd};

    ghost begins = { λ v exchanges w. AsksToAdd v.own exchanges × (w ≡ v) };

    ghost serves = { λ v event exchanges w. AsksNothing exchanges × (w ≡ record v { received = w.received }) × (v.received ≤ w.received) };

    fn process<P: EventPoller>(&mut self, _events: Events, _ops: &mut EventOps<P>) {
        if let Some(message) = self.receiver.recv(&self.rt) {
            self.received = self.received.saturating_add(1);
            if message < self.last {
                let _ = self.onward.send(message.saturating_add(1), &self.rt);
            }
        }
    }

    fn init<P: EventPoller>(&mut self, ops: &mut EventOps<P>) {
        let _ = ops.add(self.own);
    }
}

/// Takes all messages at an event, and sends itself two of the next number for each, until the last.
#[derive(Drop)]
struct Tree<R> {
    own: Events,
    receiver: Receiver<u64>,
    sender: Sender<u64>,
    last: u64,
    received: u64,
    rt: R,
}

impl<R: Wait + Clock> Tree<R> {
    /// Sends two of the next number, unless this one is the last.
    fn grow(&self, message: u64) {
        if message < self.last {
            for _branch in 0..2 {
                let _ = self.sender.send(message.saturating_add(1), &self.rt);
            }
        }
    }
}

impl<R: Wait + Clock + AllocGlobal> MutEventSubscriber for Tree<R> {
    ghost use Rattle.std.specs.Prelude.{◌≡◌};
    ghost use Rattle.event_loop.specs.Exchange.{AsksNothing, AsksToAdd};

    ghost begins = { λ v exchanges w. AsksToAdd v.own exchanges × (w ≡ v) };

    ghost serves = { λ v event exchanges w. AsksNothing exchanges };

    fn process<P: EventPoller>(&mut self, _events: Events, _ops: &mut EventOps<P>) {
        let mut taken = Vec::new(self.rt.alloc());
        let _ = self.receiver.take(&mut taken, &self.rt);
        for message in taken {
            self.received = self.received.saturating_add(1);
            self.grow(message);
        }
    }

    fn init<P: EventPoller>(&mut self, ops: &mut EventOps<P>) {
        let _ = ops.add(self.own);
    }
}

/// Runs until a run reports nothing; answers how many events there were.
fn run_to_end<S: MutEventSubscriber, P: EventPoller, R: Abort>(
    rt: &R,
    event_loop: &mut EventLoop<S, P>,
) -> usize {
    let mut events = 0usize;
    for _run in 0..MOST_RUNS {
        let count = expect_ok(rt, event_loop.run_with_timeout(0));
        if count == 0 {
            return events;
        }
        events = events.saturating_add(count);
    }
    panic!(rt; "messages are sent without an end");
}

/// A channel over a counter of the poller's table.
fn channel_on<R: Looping>(rt: &R, epoll: &Epoll<R>) -> (Sender<u64>, Receiver<u64>) {
    let counter = open_counter(rt, epoll, 0);
    expect_ok(rt, channel(counter, rt.alloc()))
}

#[test]
fn a_subscriber_sends_to_itself(rt: HostRuntime) {
    let epoll = open_poller(&rt);
    let (sender, receiver) = channel_on(&rt, &epoll);
    let first = expect_ok(&rt, sender.try_clone(&rt));
    let mut event_loop = expect_ok(&rt, EventLoop::new(rt.alloc(), epoll));
    let relay = Relay::new(&rt, receiver, sender, 100);
    let id = expect_ok(&rt, event_loop.add_subscriber(relay));
    expect_same(&rt, &first.send(1, &rt), &Ok(()));
    expect_same(&rt, &run_to_end(&rt, &mut event_loop), &100);
    let relay = expect_ok(&rt, event_loop.remove_subscriber(id));
    expect_same(&rt, &relay.received, &100);
}

#[test]
fn two_subscribers_send_to_each_other(rt: HostRuntime) {
    let epoll = open_poller(&rt);
    let (to_one, one) = channel_on(&rt, &epoll);
    let (to_two, two) = channel_on(&rt, &epoll);
    expect_same(&rt, &to_one.send(1, &rt), &Ok(()));
    let mut event_loop = expect_ok(&rt, EventLoop::new(rt.alloc(), epoll));
    let one = event_loop.add_subscriber(Relay::new(&rt, one, to_two, 99));
    let two = event_loop.add_subscriber(Relay::new(&rt, two, to_one, 99));
    expect_same(&rt, &run_to_end(&rt, &mut event_loop), &99);
    for (id, received) in [(one, 50), (two, 49)] {
        let relay = event_loop.remove_subscriber(expect_ok(&rt, id));
        expect_same(&rt, &expect_ok(&rt, relay).received, &received);
    }
}

#[test]
fn what_is_sent_to_itself_comes_at_the_next_event(rt: HostRuntime) {
    let epoll = open_poller(&rt);
    let (sender, receiver) = channel_on(&rt, &epoll);
    expect_same(&rt, &sender.send(1, &rt), &Ok(()));
    let mut event_loop = expect_ok(&rt, EventLoop::new(rt.alloc(), epoll));
    let tree = Tree {
        own: Events::new(&receiver, EventSet::IN),
        receiver,
        sender,
        last: 10,
        received: 0,
        rt,
    };
    let id = expect_ok(&rt, event_loop.add_subscriber(tree));
    expect_same(&rt, &run_to_end(&rt, &mut event_loop), &10);
    let tree = expect_ok(&rt, event_loop.remove_subscriber(id));
    // 1 + 2 + 4 + .. + 512
    expect_same(&rt, &tree.received, &1023);
}

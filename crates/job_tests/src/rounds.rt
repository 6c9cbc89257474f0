//! Rounds of a loop beside senders that end as soon as they have begun, or beside none: whether its own `run` then ends.

use crate::bystanders::{start_bystanders, stop_bystanders};
use crate::ending::{Counted, Course, beside_senders};
use crate::expecting::{Host, Looping, expect_ok, expect_same};
use event_manager::{
    EventPoller, JobSender, LoopWithSenders, NamedCounter, NoJob, RemoteEndpoint, Result,
    TrackedManager,
};
use fixtures::parts::{Idle, Parts};
use std::alloc::Global;
use std::thread;
use vmm_sys::epoll::{AsRawFd, ControlOperation, Epoll, EpollEvent, EventSet};
use vmm_sys::eventfd::EventFd;
use vmm_sys::poller::Poller;

/// How many rounds are made beside each number of senders.
const ROUNDS: u64 = 200;

/// A sender that lets others run a few times, and ends.
#[derive(Drop)]
pub struct Brief {
    turns: u64,
}

impl<R: Looping> JobSender<Idle, NoJob, u64, R> for Brief {
    fn send<N: NamedCounter>(self, _endpoint: &RemoteEndpoint<Idle, NoJob, N>, _rt: &R) -> u64 {
        for _turn in 0..self.turns {
            thread::yield_now();
        }
        self.turns
    }
}

/// A loop beside `senders` of them, whose batches have room for `capacity` events.
#[derive(Drop)]
pub struct Round {
    pub senders: u64,
    pub capacity: usize,
}

impl<R: Looping> LoopWithSenders<Idle, NoJob, Brief, R> for Round {
    fn capacity(&self) -> usize {
        self.capacity
    }

    fn begin<N: NamedCounter, P: EventPoller>(
        &mut self,
        rt: &R,
        alloc: Global,
        _manager: &mut TrackedManager<Idle, NoJob, N, P>,
    ) -> Result<Vec<Brief>> {
        let mut senders = Vec::new(alloc);
        for turns in 0..self.senders {
            expect_ok(rt, senders.push(Brief { turns }));
        }
        Ok(senders)
    }
}

/// Makes a round over a counter of its own, which nobody watches behind it.
fn make_round<R: Host>(rt: &R, alloc: Global, epoll: &mut Epoll<R>, senders: u64) {
    let event_fd = expect_ok(rt, EventFd::new(&*epoll, 0, rt));
    let own = expect_ok(rt, event_fd.try_clone());
    let poller = Counted {
        poller: expect_ok(rt, epoll.try_clone()),
        course: &Course::new(),
    };
    let parts = Parts::new(alloc, poller, event_fd);
    let mut body = Round {
        senders,
        capacity: 256,
    };
    let ended = expect_ok(rt, beside_senders(rt, parts, &mut body));
    expect_same(rt, &ended.ran, &Ok(()));
    expect_same(rt, &(ended.sent.len() as u64), &senders);
    for (turns, sent) in (0u64..).zip(ended.sent.iter()) {
        expect_same(rt, sent, &turns);
    }
    let nothing = EpollEvent::new(EventSet::empty(), 0);
    let fd = own.as_raw_fd();
    expect_ok(rt, epoll.ctl(ControlOperation::Delete, fd, nothing));
}

// The last sender is held up by those whom it wakes with the loop: so the loop looks before anything that stands behind.
#[test]
fn a_loop_ends_with_its_senders_in_each_round(rt: HostRuntime) {
    let mut epoll = expect_ok(&rt, Epoll::new(rt, rt.alloc()));
    let bystanders = start_bystanders(&rt, rt.alloc(), &epoll);
    for senders in 1..=3 {
        for _round in 0..ROUNDS {
            make_round(&rt, rt.alloc(), &mut epoll, senders);
        }
    }
    stop_bystanders(&rt, bystanders);
}

#[test]
fn a_loop_without_senders_ends(rt: HostRuntime) {
    let mut epoll = expect_ok(&rt, Epoll::new(rt, rt.alloc()));
    make_round(&rt, rt.alloc(), &mut epoll, 0);
}

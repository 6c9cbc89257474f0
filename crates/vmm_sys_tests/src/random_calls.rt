//! Threads that make calls of one table at random, each beside what it knows of its own descriptors.

use crate::expecting::{expect_ok, expect_same};
use crate::fixture::{Host, no_event, open_counter, open_line, open_poller};
use crate::random::Random;
use std::process::Abort;
use std::thread;
use vmm_sys::epoll::{AsRawFd, ControlOperation, Epoll, EpollEvent, EventSet, RawFd};
use vmm_sys::errno::Errno;
use vmm_sys::eventfd::EventFd;
use vmm_sys::line::Line;
use vmm_sys::poller::Poller;

/// How many threads there are. Each has a counter and a line.
const THREADS: u64 = 4;

/// How many calls each makes.
const CALLS: u32 = 1_000;

/// The sets that are wanted, or that a line is set to: `IN`, `PRIORITY`, `OUT`, `ERROR`, `HANG_UP`.
const SETS: u32 = 0x1f;

/// What is known of a descriptor that nobody else changes: its state, and what is wanted of it, if it has an interest.
#[derive(Clone, Copy)]
struct Known {
    fd: RawFd,
    state: EventSet,
    wanted: Option<EventSet>,
}

impl Known {
    /// What a wait reports of it; the empty set where it isn't ready.
    fn ready(&self) -> EventSet {
        let always = EventSet::ERROR.union(EventSet::HANG_UP);
        match self.wanted {
            Some(wanted) => wanted.union(always).intersection(self.state),
            None => EventSet::empty(),
        }
    }

    /// What a change of its interest is answered, and the interest that it leaves.
    fn change(&mut self, op: ControlOperation, set: EventSet) -> Result<(), Errno> {
        match (op, self.wanted) {
            (ControlOperation::Add, Some(_)) => return Err(Errno::EEXIST),
            (ControlOperation::Modify, None) => return Err(Errno::ENOENT),
            (ControlOperation::Delete, None) => return Err(Errno::ENOENT),
            (ControlOperation::Delete, Some(_)) => self.wanted = None,
            _ => self.wanted = Some(set),
        }
        Ok(())
    }
}

/// A thread's poller over the table, its counter and its line, and what it knows of them.
#[derive(Drop)]
struct Member<R> {
    poller: Epoll<R>,
    counter: EventFd,
    line: Line,
    value: u64,
    known: [Known; 2],
    random: Random,
}

impl<R: Host> Member<R> {
    fn new(rt: &R, epoll: &Epoll<R>, number: u64) -> Member<R> {
        let counter = open_counter(rt, epoll, 0);
        let line = open_line(rt, epoll);
        let known = |fd, state| Known {
            fd,
            state,
            wanted: None,
        };
        let known = [
            known(counter.as_raw_fd(), EventSet::OUT),
            known(line.as_raw_fd(), EventSet::empty()),
        ];
        Member {
            poller: expect_ok(rt, epoll.try_clone()),
            counter,
            line,
            value: 0,
            known,
            random: Random::new(number),
        }
    }

    fn write(&mut self, rt: &R) {
        let more = u64::from(self.random.below(3));
        expect_same(rt, &self.counter.write(more, rt), &Ok(()));
        self.value = self.value.saturating_add(more);
        self.know_value();
    }

    fn read(&mut self, rt: &R) {
        let answer = match self.value {
            0 => Err(Errno::EAGAIN),
            value => Ok(value),
        };
        expect_same(rt, &self.counter.read(rt), &answer);
        self.value = 0;
        self.know_value();
    }

    fn know_value(&mut self) {
        let [counter, _] = &mut self.known;
        counter.state = match self.value {
            0 => EventSet::OUT,
            _ => EventSet::IN.union(EventSet::OUT),
        };
    }

    fn set_line(&mut self, rt: &R) {
        let set = self.random.set(SETS);
        expect_same(rt, &self.line.set(set, rt), &Ok(()));
        let [_, line] = &mut self.known;
        line.state = set;
    }

    fn change(&mut self, rt: &R) {
        let (op, set) = (self.random.operation(), self.random.set(SETS));
        let at = self.random.below(2) as usize;
        let Some(known) = self.known.get_mut(at) else {
            return;
        };
        let event = EpollEvent::new(set, u64::from(known.fd.unsigned_abs()));
        let answer = known.change(op, set);
        expect_same(rt, &self.poller.ctl(op, known.fd, event), &answer);
    }

    /// Waits with room for some entries, and expects of its own descriptors what it knows.
    fn wait(&mut self, rt: &R) {
        let mut buffer = [no_event(); 3];
        let room = self.random.room().min(buffer.len());
        let count = expect_ok(rt, self.poller.wait(0, &mut buffer[..room])).min(room);
        let known = self.known;
        for own in &known {
            expect_reported(rt, own, &buffer[..count], count < room);
        }
    }

    fn make_call(&mut self, rt: &R) {
        match self.random.below(8) {
            0 => self.write(rt),
            1 => self.read(rt),
            2 => self.set_line(rt),
            3 | 4 => self.change(rt),
            _ => self.wait(rt),
        }
    }

    fn make_calls(self, rt: &R) -> Member<R> {
        let mut member = self;
        for _call in 0..CALLS {
            member.make_call(rt);
        }
        member
    }
}

/// Expects that the descriptor stands in the report at most once, as it is, and once where it is ready and there was room.
fn expect_reported<R: Abort>(rt: &R, own: &Known, report: &[EpollEvent], had_room: bool) {
    let mut times = 0u64;
    for reported in report {
        if reported.data() == u64::from(own.fd.unsigned_abs()) {
            times = times.saturating_add(1);
            expect_same(rt, &reported.event_set(), &own.ready());
        }
    }
    let is_ready = !own.ready().is_empty();
    let least = u64::from(is_ready && had_room);
    let most = u64::from(is_ready);
    expect_same(rt, &(least <= times && times <= most), &true);
}

/// Expects that a wait with room for all reports just what its threads know to be ready.
fn expect_all<R: Host>(rt: &R, epoll: &mut Epoll<R>, members: &[Member<R>]) {
    let mut buffer = [no_event(); 8];
    let count = expect_ok(rt, epoll.wait(0, &mut buffer)).min(buffer.len());
    let mut ready = 0usize;
    for member in members {
        for own in &member.known {
            expect_reported(rt, own, &buffer[..count], true);
            ready = ready.saturating_add(usize::from(!own.ready().is_empty()));
        }
    }
    expect_same(rt, &count, &ready);
}

#[test]
fn calls_at_random_answer_what_their_threads_know(rt: HostRuntime) {
    let mut epoll = open_poller(&rt);
    let mut members = Vec::new(rt.alloc());
    for number in 0..THREADS {
        expect_ok(&rt, members.push(Member::new(&rt, &epoll, number)));
    }
    let ended = thread::map_vec(&rt, members, &|member: Member<_>| member.make_calls(&rt));
    expect_all(&rt, &mut epoll, expect_ok(&rt, ended).as_slice());
}

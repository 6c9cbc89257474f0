//! Calls of a table at random, openings and closings among them, beside what a list in the words of its definition says.

use crate::expecting::{expect_ok, expect_same};
use crate::fixture::no_event;
use crate::random::Random;
use std::alloc::Global;
use std::process::Abort;
use vmm_sys::epoll::{ControlOperation, EpollEvent, EventSet, RawFd};
use vmm_sys::errno::Errno;
use vmm_sys::table::Table;

/// How many calls are made.
const CALLS: u32 = 20_000;

/// Descriptors below it are called; more are seldom open.
const NUMBERS: u32 = 12;

/// What is wanted of a descriptor.
#[derive(Clone, Copy)]
struct Wanted {
    fd: RawFd,
    set: EventSet,
}

/// A table as its definition has it: the value of the counter with each number, none where it is closed; and the interests.
#[derive(Drop)]
struct Known {
    values: Vec<Option<u64>>,
    interests: Vec<Wanted>,
}

impl Known {
    fn new(alloc: Global) -> Known {
        Known {
            values: Vec::new(alloc),
            interests: Vec::new(alloc),
        }
    }

    fn value(&self, fd: RawFd) -> Option<u64> {
        *self.values.get(usize::try_from(fd).ok()?)?
    }

    fn set_value(&mut self, fd: RawFd, value: Option<u64>) {
        for (number, held) in self.values.iter_mut().enumerate() {
            if RawFd::try_from(number) == Ok(fd) {
                *held = value;
            }
        }
    }

    /// Opens a counter: the lowest number that isn't open is given.
    fn open<R: Abort>(&mut self, rt: &R, value: u64) -> RawFd {
        let closed = self.values.iter().position(|held| held.is_none());
        let number = closed.unwrap_or(self.values.len());
        let fd = expect_ok(rt, RawFd::try_from(number));
        if closed.is_none() {
            expect_ok(rt, self.values.push(None));
        }
        self.set_value(fd, Some(value));
        fd
    }

    fn close(&mut self, fd: RawFd) -> Result<(), Errno> {
        self.value(fd).ok_or(Errno::EBADF)?;
        self.set_value(fd, None);
        self.interests.retain(|it| it.fd != fd);
        Ok(())
    }

    fn write(&mut self, fd: RawFd, more: u64) -> Result<(), Errno> {
        let held = self.value(fd).ok_or(Errno::EBADF)?;
        self.set_value(fd, Some(held.saturating_add(more)));
        Ok(())
    }

    fn read(&mut self, fd: RawFd) -> Result<u64, Errno> {
        let held = self.value(fd).ok_or(Errno::EBADF)?;
        if held == 0 {
            return Err(Errno::EAGAIN);
        }
        self.set_value(fd, Some(0));
        Ok(held)
    }

    fn change<R: Abort>(
        &mut self,
        rt: &R,
        op: ControlOperation,
        wanted: Wanted,
    ) -> Result<(), Errno> {
        self.value(wanted.fd).ok_or(Errno::EBADF)?;
        let is_there = self.interests.iter().any(|it| it.fd == wanted.fd);
        match (op, is_there) {
            (ControlOperation::Add, true) => return Err(Errno::EEXIST),
            (ControlOperation::Add, false) => expect_ok(rt, self.interests.push(wanted)),
            (_, false) => return Err(Errno::ENOENT),
            (ControlOperation::Modify, true) => {
                for it in self.interests.iter_mut() {
                    if it.fd == wanted.fd {
                        *it = wanted;
                    }
                }
            }
            (ControlOperation::Delete, true) => self.interests.retain(|it| it.fd != wanted.fd),
        }
        Ok(())
    }

    /// What a wait reports of an interest; the empty set where it isn't ready.
    fn ready(&self, wanted: Wanted) -> EventSet {
        let state = match self.value(wanted.fd) {
            None => EventSet::empty(),
            Some(0) => EventSet::OUT,
            Some(_) => EventSet::IN.union(EventSet::OUT),
        };
        wanted.set.intersection(state)
    }

    /// The first that are ready, as many as there is room for; they go to the back.
    fn wait<R: Abort>(&mut self, rt: &R, alloc: Global, room: usize) -> Vec<Wanted> {
        let mut chosen: Vec<Wanted> = Vec::new(alloc);
        for it in self.interests.iter() {
            if chosen.len() < room && !self.ready(*it).is_empty() {
                expect_ok(rt, chosen.push(*it));
            }
        }
        for it in chosen.iter() {
            self.interests.retain(|other| other.fd != it.fd);
            expect_ok(rt, self.interests.push(*it));
        }
        chosen
    }
}

/// A table, and what is known of it.
#[derive(Drop)]
struct Tried {
    table: Table,
    known: Known,
    random: Random,
    alloc: Global,
}

impl Tried {
    fn fd(&mut self) -> RawFd {
        RawFd::try_from(self.random.below(NUMBERS)).unwrap_or(0)
    }

    fn set(&mut self) -> EventSet {
        match self.random.below(3) {
            0 => EventSet::IN,
            1 => EventSet::OUT,
            _ => EventSet::empty(),
        }
    }

    fn change<R: Abort>(&mut self, rt: &R) {
        let (op, fd, set) = (self.random.operation(), self.fd(), self.set());
        let event = EpollEvent::new(set, u64::from(fd.unsigned_abs()));
        let answer = self.known.change(rt, op, Wanted { fd, set });
        expect_same(rt, &self.table.ctl(op, fd, event), &answer);
    }

    fn wait<R: Abort>(&mut self, rt: &R) {
        let mut buffer = [no_event(); 3];
        let room = self.random.room().min(buffer.len());
        let chosen = self.known.wait(rt, self.alloc, room);
        let count = self.table.wait(&mut buffer[..room]);
        expect_same(rt, &count, &Ok(chosen.len()));
        for (reported, it) in buffer.iter().zip(chosen.iter()) {
            let expected = EpollEvent::new(self.known.ready(*it), u64::from(it.fd.unsigned_abs()));
            expect_same(rt, reported, &expected);
        }
    }

    fn make_call<R: Abort>(&mut self, rt: &R) {
        let (fd, value) = (self.fd(), u64::from(self.random.below(2)));
        match self.random.below(8) {
            0 => {
                let number = self.known.open(rt, value);
                expect_same(rt, &self.table.add_counter(value), &Ok(number));
            }
            1 => expect_same(rt, &self.table.close(fd), &self.known.close(fd)),
            2 => expect_same(
                rt,
                &self.table.write(fd, value),
                &self.known.write(fd, value),
            ),
            3 => expect_same(rt, &self.table.read(fd), &self.known.read(fd)),
            4 | 5 => self.change(rt),
            _ => self.wait(rt),
        }
    }
}

#[test]
fn calls_at_random_answer_as_the_definition_says(rt: HostRuntime) {
    let mut tried = Tried {
        table: Table::new(rt.alloc()),
        known: Known::new(rt.alloc()),
        random: Random::new(1),
        alloc: rt.alloc(),
    };
    for _call in 0..CALLS {
        tried.make_call(&rt);
    }
}

//! Records of calls, and their replays.

use crate::expecting::{expect_ok, expect_same};
use poller_records::record::RecordEntry;
use poller_records::recording_poller::RecordingPoller;
use poller_records::replay_poller::ReplayPoller;
use std::alloc::Global;
use std::process::Abort;
use vmm_sys::epoll::{ControlOperation, EpollEvent, EventSet, RawFd};
use vmm_sys::errno::Errno;
use vmm_sys::poller::Poller;
use vmm_sys::table::Table;

const ADD: ControlOperation = ControlOperation::Add;

fn event(word: u64) -> EpollEvent {
    EpollEvent::new(EventSet::IN, word)
}

fn added(fd: RawFd, answer: Result<(), Errno>) -> RecordEntry {
    let op = ADD;
    let event = event(7);
    RecordEntry::Control {
        op,
        fd,
        event,
        answer,
    }
}

fn waited(room: usize, answer: Result<usize, Errno>) -> RecordEntry {
    RecordEntry::Wait {
        ms: -1,
        room,
        answer,
    }
}

/// A table with two counters above 0, recorded with room for seven entries.
fn recording<R: Abort>(rt: &R, alloc: Global) -> RecordingPoller<Table> {
    let mut table = Table::new(alloc);
    expect_same(rt, &table.add_counter(1), &Ok(0));
    expect_same(rt, &table.add_counter(1), &Ok(1));
    expect_ok(rt, RecordingPoller::new(table, alloc, 7))
}

/// Adds the first counter, once more, and the second, and waits with room for three events.
fn run<R: Abort, P: Poller>(rt: &R, poller: &mut P) {
    expect_same(rt, &poller.ctl(ADD, 0, event(7)), &Ok(()));
    expect_same(rt, &poller.ctl(ADD, 0, event(7)), &Err(Errno::EEXIST));
    expect_same(rt, &poller.ctl(ADD, 1, event(7)), &Ok(()));
    let mut buffer = [event(0); 3];
    expect_same(rt, &poller.wait(-1, &mut buffer), &Ok(2));
    expect_same(rt, &buffer, &[event(7), event(7), event(0)]);
    expect_same(rt, &poller.wait(-1, &mut []), &Err(Errno::EINVAL));
}

// The entries of that run.
fn entries() -> [RecordEntry; 7] {
    [
        added(0, Ok(())),
        added(0, Err(Errno::EEXIST)),
        added(1, Ok(())),
        waited(3, Ok(2)),
        RecordEntry::Reported(event(7)),
        RecordEntry::Reported(event(7)),
        waited(0, Err(Errno::EINVAL)),
    ]
}

#[test]
fn a_table_is_recorded_and_replayed(rt: HostRuntime) {
    let mut recording = recording(&rt, rt.alloc());
    run(&rt, &mut recording);
    expect_same(&rt, &recording.is_complete(), &true);
    expect_same(&rt, &recording.record(), &entries().as_slice());
    let (_, record) = recording.into_parts();
    expect_replayed(&rt, &mut ReplayPoller::new(record));
}

// Makes the run again, and then one call too many.
fn expect_replayed<R: Abort>(rt: &R, replay: &mut ReplayPoller) {
    run(rt, replay);
    expect_same(rt, &(replay.is_over(), replay.diverged()), &(true, None));
    let past = replay.ctl(ADD, 0, event(7));
    expect_same(rt, &past, &Err(Errno::EIO));
    expect_same(rt, &(replay.passed(), replay.diverged()), &(7, Some(7)));
}

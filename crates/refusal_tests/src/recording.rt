//! A poller with a record of its calls, and a replay of that.

use crate::again;
use crate::descriptors::event_of;
use crate::expecting::{Looping, expect_same, mark};
use crate::scripts::script_of;
use poller_records::recording_poller::RecordingPoller;
use poller_records::replay_poller::ReplayPoller;
use std::alloc::Global;
use vmm_sys::epoll::ControlOperation;
use vmm_sys::poller::Poller;
use vmm_sys::script_poller::ScriptPoller;

/// The entries of a change, and of a wait with one event.
const ENTRIES: usize = 3;

/// A recording of a script of one report, in which the entries just find room. A refused one has dropped its script.
fn make_recording<R: Looping>(rt: &R, alloc: Global) -> RecordingPoller<ScriptPoller> {
    again!(
        rt,
        "RecordingPoller::new",
        RecordingPoller::new(script_of(rt, alloc, &[event_of(3)], 1), alloc, ENTRIES)
    )
}

/// Expects that the poller answers a change and a wait as the script does, without memory.
fn expect_script<P: Poller, R: Looping>(rt: &R, call: &str, poller: &mut P) {
    let event = event_of(3);
    let mut buffer = [event_of(99); 2];
    mark(rt);
    let changed = poller.ctl(ControlOperation::Add, 3, event);
    let waited = poller.wait(0, &mut buffer);
    mark(rt);
    expect_same(rt, call, &(changed, waited), &(Ok(()), Ok(1)));
    expect_same(rt, call, &buffer, &[event, event_of(99)]);
}

#[test]
fn calls_are_recorded_and_replayed(rt: HostRuntime) {
    let mut recording = make_recording(&rt, rt.alloc());
    expect_script(&rt, "a recording of 2 calls", &mut recording);
    let recorded = (recording.is_complete(), recording.record().len());
    expect_same(&rt, "a recording of 2 calls", &recorded, &(true, ENTRIES));
    let (_script, record) = recording.into_parts();
    let mut replay = ReplayPoller::new(record);
    expect_script(&rt, "a replay of 2 calls", &mut replay);
    expect_same(&rt, "a replay of 2 calls", &replay.is_over(), &true);
}

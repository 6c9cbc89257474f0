//! Scripts of a poller.

use crate::again;
use crate::descriptors::event_of;
use crate::expecting::{Looping, expect_ok, expect_same};
use std::alloc::Global;
use vmm_sys::epoll::{ControlOperation, EpollEvent, RawFd};
use vmm_sys::errno::Errno;
use vmm_sys::poller::Poller;
use vmm_sys::script_poller::ScriptPoller;

/// How many reports, faults and refusals are pushed.
const PUSHED: u16 = 9;

const ADD: ControlOperation = ControlOperation::Add;

/// A report of these entries.
fn report_of<R: Looping>(rt: &R, alloc: Global, entries: &[EpollEvent]) -> Vec<EpollEvent> {
    let call = "Vec::with_capacity";
    let mut report = again!(rt, call, Vec::with_capacity(alloc, entries.len()));
    expect_ok(rt, call, report.extend_from_slice(entries));
    report
}

/// Appends a report of these entries to the script.
fn push_report<R: Looping>(
    rt: &R,
    alloc: Global,
    script: &mut ScriptPoller,
    entries: &[EpollEvent],
) {
    again!(
        rt,
        "push_report",
        script.push_report(report_of(rt, alloc, entries))
    )
}

/// A script of `reports` reports, each of these entries.
pub fn script_of<R: Looping>(
    rt: &R,
    alloc: Global,
    entries: &[EpollEvent],
    reports: u32,
) -> ScriptPoller {
    let mut script = ScriptPoller::new(alloc);
    for _ in 0..reports {
        push_report(rt, alloc, &mut script, entries);
    }
    script
}

/// Pushes a fault, a report of the descriptor and a refusal of it.
fn push_three<R: Looping>(rt: &R, alloc: Global, script: &mut ScriptPoller, fd: RawFd) {
    again!(rt, "push_fault", script.push_fault(Errno::EINTR));
    push_report(rt, alloc, script, &[event_of(fd)]);
    again!(rt, "push_refusal", script.push_refusal(ADD, fd, Errno(fd)))
}

/// Expects the answers that `push_three` pushed for the descriptor, and nothing behind its refusal.
fn expect_three<R: Looping>(rt: &R, script: &mut ScriptPoller, fd: RawFd) {
    let event = event_of(fd);
    let mut buffer = [event_of(99); 2];
    let faulty = script.wait(0, &mut buffer);
    expect_same(rt, "push_fault", &faulty, &Err(Errno::EINTR));
    expect_same(rt, "push_report", &script.wait(0, &mut buffer), &Ok(1));
    expect_same(rt, "push_report", &buffer, &[event, event_of(99)]);
    let answers = [script.ctl(ADD, fd, event), script.ctl(ADD, fd, event)];
    expect_same(rt, "push_refusal", &answers, &[Err(Errno(fd)), Ok(())]);
}

/// A refused push would show in the answers, which are taken behind all pushes.
#[test]
fn faults_reports_and_refusals_are_pushed(rt: HostRuntime) {
    let mut script = ScriptPoller::new(rt.alloc());
    for k in 0..PUSHED {
        push_three(&rt, rt.alloc(), &mut script, k as RawFd);
    }
    for k in 0..PUSHED {
        expect_three(&rt, &mut script, k as RawFd);
    }
    let mut buffer = [event_of(99)];
    expect_same(&rt, "push_report", &script.wait(0, &mut buffer), &Ok(0));
}

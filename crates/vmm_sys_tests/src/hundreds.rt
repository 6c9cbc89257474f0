//! The poller that follows a script; and a thousand of each thing: no call is refused for want of memory, and none is lost.

use crate::expecting::{expect_ok, expect_same};
use crate::fixture::{
    ADD, DELETE, MODIFY, input, no_event, open_poller, wanted_counter, wanted_line,
};
use std::process::Abort;
use vmm_sys::epoll::{EventSet, RawFd};
use vmm_sys::errno::Errno;
use vmm_sys::poller::Poller;
use vmm_sys::script_poller::ScriptPoller;
use vmm_sys::table::Table;

const MANY: u64 = 1000;

#[test]
fn a_thousand_descriptors_of_a_table(rt: HostRuntime) {
    let mut table = Table::new(rt.alloc());
    for word in 0..MANY {
        let fd = open_ready(&rt, &mut table, word);
        expect_ok(&rt, table.ctl(ADD, fd, input(word)));
    }
    expect_all_in_turn(&rt, &mut table);
}

// A counter, or a line for each second number.
fn open_ready<R: Abort>(rt: &R, table: &mut Table, number: u64) -> RawFd {
    if number % 2 == 0 {
        return expect_ok(rt, table.add_counter(1));
    }
    let fd = expect_ok(rt, table.add_line());
    expect_ok(rt, table.set_line(fd, EventSet::IN));
    fd
}

#[test]
fn a_thousand_descriptors_of_a_shared_table(rt: HostRuntime) {
    let mut epoll = open_poller(&rt);
    let mut counters = Vec::new(rt.alloc());
    let mut lines = Vec::new(rt.alloc());
    for _ in 0..MANY / 2 {
        expect_ok(&rt, counters.push(wanted_counter(&rt, &mut epoll, 1)));
        let line = wanted_line(&rt, &mut epoll);
        expect_ok(&rt, line.set(EventSet::IN, &rt));
        expect_ok(&rt, lines.push(line));
    }
    expect_all_in_turn(&rt, &mut epoll);
}

// Waits with room for 300 report the thousand in the order of their words, round and round.
fn expect_all_in_turn<P: Poller, R: Abort>(rt: &R, poller: &mut P) {
    let mut next = 0u64;
    for _ in 0..4 {
        let mut buffer = [no_event(); 300];
        expect_same(rt, &poller.wait(0, &mut buffer), &Ok(300));
        for entry in buffer {
            expect_same(rt, &entry, &input(next % MANY));
            next = next.wrapping_add(1);
        }
    }
}

#[test]
fn a_thousand_reports(rt: HostRuntime) {
    let mut script = ScriptPoller::new(rt.alloc());
    for word in 0..MANY {
        let report = expect_ok(&rt, vec![in rt.alloc(); input(word)]);
        expect_ok(&rt, script.push_report(report));
        expect_ok(&rt, script.push_fault(Errno(word as i32)));
    }
    for word in 0..MANY {
        let mut buffer = [no_event()];
        expect_same(&rt, &script.wait(0, &mut buffer), &Ok(1));
        expect_same(&rt, &buffer, &[input(word)]);
        let fault = Err(Errno(word as i32));
        expect_same(&rt, &script.wait(0, &mut buffer), &fault);
    }
}

#[test]
fn a_thousand_refusals(rt: HostRuntime) {
    let mut script = ScriptPoller::new(rt.alloc());
    for fd in 0..MANY as i32 {
        expect_ok(&rt, script.push_refusal(ADD, fd, Errno(fd)));
    }
    for fd in 0..MANY as i32 {
        let answer = script.ctl(ADD, fd, no_event());
        expect_same(&rt, &answer, &Err(Errno(fd)));
    }
}

#[test]
fn a_report_of_a_thousand(rt: HostRuntime) {
    let mut script = ScriptPoller::new(rt.alloc());
    let mut report = Vec::new(rt.alloc());
    for word in 0..MANY {
        expect_ok(&rt, report.push(input(word)));
    }
    expect_ok(&rt, script.push_report(report));
    let mut buffer = [no_event(); 1000];
    expect_same(&rt, &script.wait(0, &mut buffer), &Ok(1000));
    for (entry, word) in buffer.iter().zip(0..MANY) {
        expect_same(&rt, entry, &input(word));
    }
}

#[test]
fn reports_and_faults(rt: HostRuntime) {
    let mut script = ScriptPoller::new(rt.alloc());
    let report = expect_ok(&rt, vec![in rt.alloc(); input(1), input(2), input(3)]);
    expect_ok(&rt, script.push_report(report));
    expect_ok(&rt, script.push_fault(Errno::EINTR));
    expect_ok(&rt, script.push_report(Vec::new(rt.alloc())));
    expect_waits(&rt, &mut script);
}

// Waits without room, and with room for two events, until the script is over.
fn expect_waits<R: Abort>(rt: &R, script: &mut ScriptPoller) {
    let rows = [
        (Ok(2), [input(1), input(2)]),
        (Ok(1), [input(3), input(0)]),
        (Err(Errno::EINTR), [input(0); 2]),
        (Ok(0), [input(0); 2]),
        (Ok(0), [input(0); 2]),
    ];
    for (answer, entries) in rows {
        let mut buffer = [input(0); 2];
        expect_same(rt, &script.wait(-1, &mut []), &Err(Errno::EINVAL));
        expect_same(rt, &script.wait(-1, &mut buffer), &answer);
        expect_same(rt, &buffer, &entries);
    }
}

#[test]
fn refusals_in_the_order_of_pushing(rt: HostRuntime) {
    let mut script = ScriptPoller::new(rt.alloc());
    for (op, errno) in [(ADD, 22), (DELETE, 5), (ADD, 23)] {
        expect_ok(&rt, script.push_refusal(op, 3, Errno(errno)));
    }
    let rows = [
        (MODIFY, 3, Ok(())),
        (ADD, 4, Ok(())),
        (ADD, 3, Err(Errno(22))),
        (ADD, 3, Err(Errno(23))),
        (ADD, 3, Ok(())),
        (DELETE, 3, Err(Errno(5))),
        (DELETE, 3, Ok(())),
    ];
    for (op, fd, answer) in rows {
        expect_same(&rt, &script.ctl(op, fd, input(0)), &answer);
    }
}

//! Tables of one owner.

use crate::again;
use crate::descriptors::event_of;
use crate::expecting::{Looping, expect_same, mark};
use vmm_sys::epoll::{ControlOperation, EventSet, RawFd};
use vmm_sys::errno::Errno;
use vmm_sys::poller::Poller;
use vmm_sys::table::Table;

/// How many counters and how many lines are opened.
const OPENED: u16 = 9;

/// Opens a counter of value 1, and registers it: its descriptor must be this one.
fn open_counter<R: Looping>(rt: &R, table: &mut Table, fd: RawFd) {
    let call = "add_counter";
    let unopened = Err(Errno::EBADF);
    expect_same(rt, call, &table.write(fd, 0), &unopened);
    let opened = again!(
        rt,
        call,
        table.add_counter(1),
        table.write(fd, 0) == unopened
    );
    expect_same(rt, call, &opened, &fd);
    expect_same(rt, call, &table.write(fd, 0), &Ok(()));
    let registered = table.ctl(ControlOperation::Add, fd, event_of(fd));
    expect_same(rt, "Table::ctl", &registered, &Ok(()));
}

/// Opens a line, and registers it: its descriptor must be this one.
fn open_line<R: Looping>(rt: &R, table: &mut Table, fd: RawFd) {
    let call = "add_line";
    let set = EventSet::empty();
    let unopened = Err(Errno::EBADF);
    let opened = again!(
        rt,
        call,
        table.add_line(),
        table.set_line(fd, set) == unopened
    );
    expect_same(rt, call, &opened, &fd);
    expect_same(rt, call, &table.set_line(fd, set), &Ok(()));
    let registered = table.ctl(ControlOperation::Add, fd, event_of(fd));
    expect_same(rt, "Table::ctl", &registered, &Ok(()));
}

#[test]
fn a_table_is_filled_and_waits(rt: HostRuntime) {
    let mut table = Table::new(rt.alloc());
    for k in 0..OPENED {
        let fd = 2 * k as RawFd;
        open_counter(&rt, &mut table, fd);
        open_line(&rt, &mut table, fd + 1);
    }
    let mut buffer = [event_of(0); 16];
    mark(&rt);
    let waited = table.wait(&mut buffer);
    mark(&rt);
    expect_same(&rt, "Table::wait", &waited, &Ok(9));
}

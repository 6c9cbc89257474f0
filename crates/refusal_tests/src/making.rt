//! Managers, made for what is done with them.

use crate::again;
use crate::descriptors::{copy_counter, copy_epoll, is_unregistered, open_counter, open_epoll};
use crate::expecting::Host;
use crate::scripts::script_of;
use event_manager::Result;
use fixtures::making::{WithManager, with_manager};
use fixtures::parts::Parts;
use std::alloc::Global;
use vmm_sys::epoll::{Epoll, EpollEvent};
use vmm_sys::eventfd::EventFd;

/// A poller over a table, and an endpoint of it that has descriptor 0 and is silent.
#[derive(Drop)]
pub struct OnTable<R> {
    pub epoll: Epoll<R>,
    pub endpoint: EventFd,
}

/// Both, of a new table.
pub fn open_table<R: Host>(rt: &R, alloc: Global) -> OnTable<R> {
    let mut epoll = open_epoll(rt, alloc);
    let endpoint = open_counter(rt, &mut epoll, 0);
    OnTable { epoll, endpoint }
}

/// The parts of a manager over the table.
pub fn parts_of<R: Host>(rt: &R, alloc: Global, on_table: &OnTable<R>) -> Parts<Epoll<R>> {
    let poller = copy_epoll(rt, &on_table.epoll);
    Parts::new(alloc, poller, copy_counter(rt, &on_table.endpoint))
}

/// Makes a manager over the table, and does with it what is to be done. A refused one must have left the endpoint unregistered.
pub fn over_table<R: Host, B: WithManager<Output = ()> + Copy + Drop>(
    rt: &R,
    alloc: Global,
    on_table: &mut OnTable<R>,
    body: B,
) {
    again!(
        rt,
        "EventManager::new",
        with_manager(parts_of(rt, alloc, on_table), body),
        is_unregistered(&mut on_table.epoll, 0)
    )
}

/// As [`over_table`] over a script, made once.
fn make_over_script<R: Host, B: WithManager<Output = ()> + Drop>(
    rt: &R,
    alloc: Global,
    entries: &[EpollEvent],
    endpoint: &EventFd,
    body: B,
) -> Result<()> {
    let script = script_of(rt, alloc, entries, 2);
    let counter = copy_counter(rt, endpoint);
    with_manager(Parts::new(alloc, script, counter), body)
}

/// Makes a manager over a script of two reports, each of these entries, and does with it what is to be done. Its endpoint has
/// descriptor 0, in a table that nobody polls.
pub fn over_script<R: Host, B: WithManager<Output = ()> + Copy + Drop>(
    rt: &R,
    alloc: Global,
    entries: &[EpollEvent],
    body: B,
) {
    let silent = open_table(rt, alloc);
    again!(
        rt,
        "EventManager::new",
        make_over_script(rt, alloc, entries, &silent.endpoint, body)
    )
}

//! Threads that sleep in waits of a table: who tells of a change there has to wake them, and is held up for a while.

use crate::expecting::{Host, expect_ok};
use std::alloc::Global;
use std::sync::Arc;
use std::sync::atomic::{AtomicBool, Ordering};
use std::thread;
use std::thread::JoinHandle;
use std::time::Duration;
use vmm_sys::epoll::{Epoll, EpollEvent, EventSet};
use vmm_sys::poller::Poller;

/// How many there are.
const BYSTANDERS: u32 = 8;

/// How often each waits at most, and for how many milliseconds.
const WAITS: u32 = 1_000_000;

const MOST_TIME: i32 = 100;

/// How many microseconds each sleeps behind a wait.
const PAUSE: u64 = 500;

/// The threads, and what ends them.
#[derive(Drop)]
pub struct Bystanders {
    is_over: Arc<AtomicBool>,
    threads: Vec<JoinHandle<()>>,
}

/// Waits until it is over.
fn stand_by<R: Host>(rt: &R, epoll: &mut Epoll<R>, is_over: &AtomicBool) {
    let mut buffer = [EpollEvent::new(EventSet::empty(), 0)];
    for _wait in 0..WAITS {
        if is_over.load(Ordering::SeqCst) {
            return;
        }
        expect_ok(rt, epoll.wait(MOST_TIME, &mut buffer));
        thread::sleep(rt, Duration::from_micros(PAUSE));
    }
}

/// Lets them wait beside the others of the table.
pub fn start_bystanders<R: Host + 'static>(rt: &R, alloc: Global, epoll: &Epoll<R>) -> Bystanders {
    let is_over = expect_ok(rt, Arc::new(alloc, AtomicBool::new(false)));
    let mut threads = Vec::new(alloc);
    for _bystander in 0..BYSTANDERS {
        let mut theirs = expect_ok(rt, epoll.try_clone());
        let flag = expect_ok(rt, Arc::try_clone(&is_over));
        let own = *rt;
        let started = thread::spawn(rt, move || stand_by(&own, &mut theirs, &flag));
        expect_ok(rt, threads.push(expect_ok(rt, started)));
    }
    Bystanders { is_over, threads }
}

/// Ends them.
pub fn stop_bystanders<R: Host>(rt: &R, bystanders: Bystanders) {
    let Bystanders { is_over, threads } = bystanders;
    is_over.store(true, Ordering::SeqCst);
    for thread in threads {
        thread.join(rt);
    }
}

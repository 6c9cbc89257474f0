//! A look how many messages wait, while the channel's lock is held.

use crate::expecting::{expect_ok, expect_same};
use crate::host::Looping;
use channels::{Receiver, channel};
use std::sync::Wait;
use std::sync::atomic::{AtomicBool, Ordering};
use std::thread;
use std::time::{Clock, Duration};
use vmm_sys::counter::{Bell, Counter};
use vmm_sys::epoll::{AsRawFd, RawFd};
use vmm_sys::errno::Errno;

/// For how many milliseconds one thread waits for the other at most.
const PATIENCE: u64 = 5_000;

/// What a thread says to the other one.
#[derive(Drop)]
struct Signs {
    rings: AtomicBool,
    looked: AtomicBool,
}

/// A counter of the test's own, whose ring lasts until the other thread has looked.
#[derive(Drop)]
struct SlowCounter<'a> {
    signs: &'a Signs,
}

impl AsRawFd for SlowCounter<'_> {
    ghost use Rattle.std.specs.Prelude.{pos};

    ghost descriptor = { λ _. pos 0 };

    fn as_raw_fd(&self) -> RawFd {
        0
    }
}

impl Bell for SlowCounter<'_> {
    ghost rings = { λ v answer. Unit {0} };

    fn ring<R: Wait + Clock>(&self, rt: &R) -> Result<(), Errno> {
        self.signs.rings.store(true, Ordering::SeqCst);
        wait_for(rt, &self.signs.looked);
        Ok(())
    }
}

impl Counter for SlowCounter<'_> {
    ghost clears = { λ v answer. Unit {0} };

    fn clear<R: Wait + Clock>(&self, _rt: &R) -> Result<u64, Errno> {
        Ok(1)
    }
}

/// Waits until the flag is set, for as long as there is patience.
fn wait_for<R: Clock>(rt: &R, flag: &AtomicBool) {
    for _look in 0..PATIENCE {
        if flag.load(Ordering::SeqCst) {
            break;
        }
        thread::sleep(rt, Duration::from_millis(1));
    }
}

/// Looks while the other thread rings: how many messages wait then.
fn look<R: Looping>(
    rt: &R,
    receiver: &Receiver<u64, SlowCounter<'_>>,
    signs: &Signs,
) -> Option<usize> {
    wait_for(rt, &signs.rings);
    let seen = receiver.pending();
    signs.looked.store(true, Ordering::SeqCst);
    seen
}

#[test]
fn pending_is_unknown_while_the_lock_is_held(rt: HostRuntime) {
    let signs = Signs {
        rings: AtomicBool::new(false),
        looked: AtomicBool::new(false),
    };
    let made = channel(SlowCounter { signs: &signs }, rt.alloc());
    let (sender, receiver) = expect_ok(&rt, made);
    let (seen, sent) = thread::join(&rt, || look(&rt, &receiver, &signs), || sender.send(5, &rt));
    expect_same(&rt, &seen, &None);
    expect_same(&rt, &sent, &Ok(()));
    expect_same(&rt, &receiver.pending(), &Some(1));
}

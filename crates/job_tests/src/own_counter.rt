//! A counter of the tests' own, which no table has, and the poller that watches it.

use fixtures::parts::Parts;
use fixtures::waits::{LOOKS, holds_within};
use std::alloc::{AllocError, Global};
use std::sync::{Arc, Condvar, CondvarTimeouts, Mutex, Wait};
use std::time::{Clock, Duration};
use vmm_sys::counter::{Bell, Counter};
use vmm_sys::epoll::{AsRawFd, ControlOperation, EpollEvent, EventSet, RawFd};
use vmm_sys::errno::Errno;
use vmm_sys::poller::Poller;

/// The descriptor of the counter.
const DESCRIPTOR: RawFd = 77;

/// The highest value of the counter.
pub const HIGHEST: u64 = 3;

/// For how many milliseconds a wait without a limit lasts, and what it then answers.
const LONG: u64 = 20_000;

const NEVER_RUNG: Errno = Errno(110);

/// What counter and poller share.
struct Shared {
    state: Mutex<State>,
    changed: Condvar,
}

// Not derived: then who owns one has a call to prove, and not a drop of all that is in it.
impl Drop for Shared {
    fn drop(self) {
        let Shared {
            state: _,
            changed: _,
        } = self;
    }
}

/// The counter's value, how many waits sleep, and how often it was cleared.
#[derive(Drop)]
struct State {
    value: u64,
    sleeping: u32,
    clears: u64,
}

/// The counter.
#[derive(Drop)]
pub struct OwnCounter {
    shared: Arc<Shared>,
}

impl OwnCounter {
    /// Waits until a wait sleeps, and says whether one does.
    pub fn wait_for_sleeper<R: Wait + Clock>(&self, rt: &R) -> bool {
        holds_within(rt, LOOKS, || self.shared.state.lock(rt).sleeping > 0)
    }

    /// How often it was cleared.
    pub fn clears<R: Wait>(&self, rt: &R) -> u64 {
        self.shared.state.lock(rt).clears
    }

    /// Another handle on it.
    pub fn try_clone(&self) -> Result<OwnCounter, AllocError> {
        Ok(OwnCounter {
            shared: Arc::try_clone(&self.shared)?,
        })
    }
}

impl AsRawFd for OwnCounter {
    ghost use Rattle.std.specs.Prelude.{pos};

    ghost descriptor = { λ _. pos 77 };

    fn as_raw_fd(&self) -> RawFd {
        DESCRIPTOR
    }
}

impl Bell for OwnCounter {
    ghost rings = { λ v answer. Unit {0} };

    fn ring<R: Wait + Clock>(&self, rt: &R) -> Result<(), Errno> {
        let mut state = self.shared.state.lock(rt);
        if state.value >= HIGHEST {
            return Err(Errno::EAGAIN);
        }
        state.value = state.value.saturating_add(1);
        self.shared.changed.notify_all();
        Ok(())
    }
}

impl Counter for OwnCounter {
    ghost clears = { λ v answer. Unit {0} };

    fn clear<R: Wait + Clock>(&self, rt: &R) -> Result<u64, Errno> {
        let mut state = self.shared.state.lock(rt);
        let value = state.value;
        state.value = 0;
        state.clears = state.clears.saturating_add(1);
        Ok(value)
    }
}

/// Reports the counter once it was added, while its value is above 0.
#[derive(Drop)]
pub struct OwnPoller<R> {
    shared: Arc<Shared>,
    wanted: Option<EpollEvent>,
    rt: R,
}

impl<R: Wait + Clock + Drop> Poller for OwnPoller<R> {
    ghost use base.Stored.{gnil};

    ghost meaning = { λ _. gnil };

    ghost may_ctl = { λ before op fd event answer after. Unit {0} };

    ghost may_wait = { λ before ms room answer entries after. Unit {0} };

    fn ctl(&mut self, op: ControlOperation, fd: RawFd, event: EpollEvent) -> Result<(), Errno> {
        match op {
            ControlOperation::Add if fd == DESCRIPTOR => self.wanted = Some(event),
            _ => return Err(Errno::EINVAL),
        }
        Ok(())
    }

    fn wait(&mut self, ms: i32, buffer: &mut [EpollEvent]) -> Result<usize, Errno> {
        let limit = u64::try_from(ms).unwrap_or(LONG);
        let mut state = self.shared.state.lock(&self.rt);
        if state.value == 0 && limit > 0 {
            state.sleeping = state.sleeping.saturating_add(1);
            let limit = Duration::from_millis(limit);
            let (woken, is_late) = self.shared.changed.wait_timeout(&self.rt, state, limit);
            state = woken;
            state.sleeping = state.sleeping.saturating_sub(1);
            if is_late.timed_out() && ms < 0 {
                return Err(NEVER_RUNG);
            }
        }
        match (self.wanted, buffer.first_mut()) {
            (Some(wanted), Some(entry)) if state.value > 0 => {
                *entry = EpollEvent::new(EventSet::IN, wanted.data());
                Ok(1)
            }
            _ => Ok(0),
        }
    }
}

/// Parts of a counter of value 0, and a poller that watches it.
pub fn own_parts<R: Wait + Clock + Drop>(
    rt: R,
    alloc: Global,
) -> Result<Parts<OwnPoller<R>, OwnCounter>, AllocError> {
    let state = State {
        value: 0,
        sleeping: 0,
        clears: 0,
    };
    let shared = Shared {
        state: Mutex::new(state),
        changed: Condvar::new(),
    };
    let shared = Arc::new(alloc, shared)?;
    let counter = OwnCounter {
        shared: Arc::try_clone(&shared)?,
    };
    let poller = OwnPoller {
        shared,
        wanted: None,
        rt,
    };
    Ok(Parts::new(alloc, poller, counter))
}

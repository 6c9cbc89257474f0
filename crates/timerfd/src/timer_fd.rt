//! Timers as descriptors.

ghost use Rattle.std.specs.Prelude.{◌≡◌, ◌<◌, Ok, IfOk, IfErr};

use crate::clock;
use crate::description::{self, Description, Handle};
use crate::shared::Shared;
use crate::timed_poller::TimedPoller;
use std::sync::{Arc, Wait};
use std::time::{Clock, Duration};
use vmm_sys::counter::Counter;
use vmm_sys::epoll::{AsRawFd, RawFd};
use vmm_sys::errno::Errno;
use vmm_sys::eventfd::EventFd;

/// A timer of a [`TimedPoller`], under the names of `vmm-sys-util`'s `timerfd`. It is ready for `IN` from when it is due until its
/// expirations are taken by [`wait`](TimerFd::wait). The clock of a handle passed to a call must be that of the handle which the
/// poller was made with. No type checks it: by another clock the timer is due at another time, or never.
///
/// It is closed where its last handle, copies included, ends by [`close`](TimerFd::close). Where that one is only dropped it stays
/// open, as an [`EventFd`] does: if it is registered it is still reported, and its number and its memory never come back.
#[derive(Drop)]
pub struct TimerFd<C = EventFd> {
    handle: Handle<C>,
}

impl<C: Counter + Drop> TimerFd<C> {
    ghost use Rattle.timerfd.specs.TimerFd.{descriptor_of, IsOpeningError};

    /// Opens a timer, disarmed. `EMFILE`: 2147483648 timers of the poller are open. `ENOMEM`: memory, or one more owner of the
    /// timers, was refused. A refused call opens nothing.
    pub fn new<P, Q, R: Wait>(timed: &TimedPoller<P, Q, C>, rt: &R) -> Result<TimerFd<C>, Errno>
        ensures { IfErr result IsOpeningError }
    {
        Self::open(&timed.timers, rt)
    }

    /// As [`new`](TimerFd::new), a timer of the same poller, for code without the poller: in a job, or a body of `with_senders`.
    pub fn open_another<R: Wait>(&self, rt: &R) -> Result<TimerFd<C>, Errno>
        ensures { IfErr result IsOpeningError }
    {
        Self::open(&self.handle.timers, rt)
    }

    fn open<R: Wait>(timers: &Arc<Shared<C>>, rt: &R) -> Result<TimerFd<C>, Errno>
        ensures { IfErr result IsOpeningError }
    {
        let timers = Arc::try_clone(timers)?;
        let alloc = timers.alloc;
        let index = timers.state.lock(rt).timers.add()?;
        match Arc::new(alloc, Description::new(timers, index)) {
            Ok(handle) => Ok(TimerFd { handle }),
            Err(refused) => {
                refused.value.close(rt);
                Err(Errno::ENOMEM)
            }
        }
    }

    /// Another handle on the same timer. `ENOMEM`: the `Arc` refused a copy; then nothing changed.
    pub fn try_clone(&self) -> Result<TimerFd<C>, Errno>
        ensures same_descriptor { IfOk result (λ other. descriptor_of other ≡ descriptor_of self.now) }
        ensures errors { IfErr result (λ e. e ≡ Errno.ENOMEM) }
    {
        let handle = Arc::try_clone(&self.handle)?;
        Ok(TimerFd { handle })
    }

    /// Closes this handle, and with the last one the timer: its interest is gone, and its number may be given to a timer that is
    /// opened later, the highest first. So remove a timer from a manager before you close it.
    pub fn close<R: Wait>(self, rt: &R) {
        description::close(self.handle, rt);
    }

    /// Arms the timer: it is due after this duration, and then after each interval, or once without one. A zero duration disarms
    /// it. Expirations not taken are dropped. A time above 584 years from the clock's beginning counts as that. A wait that would
    /// sleep past the due time is woken. The clock's error is returned by its number, `EIO` if it has none, and nothing changes. If
    /// the counter refuses its ring, other than by `EAGAIN`, that is returned: the timer is armed, but the wait may sleep on.
    pub fn reset<R: Wait + Clock>(
        &self,
        duration: Duration,
        interval: Option<Duration>,
        rt: &R,
    ) -> Result<(), Errno> {
        if duration.is_zero() {
            return self.clear(rt);
        }
        let due = clock::now(rt)?.saturating_add(clock::nanoseconds(duration));
        let interval = interval.map_or(0, clock::nanoseconds);
        let index = self.handle.index();
        self.handle.timers.arm(index, due, interval, rt)
    }

    /// Takes the number of expirations since the last such call, or since it was armed, up to the time last told, by a wait of the
    /// poller or a look at a timer; if there is none by then, up to now, by the clock. Later ones come with the next call, and one
    /// event more. It never waits for one. The clock's error as in [`reset`](TimerFd::reset); then `EAGAIN`: it hasn't expired.
    pub fn wait<R: Wait + Clock>(&self, rt: &R) -> Result<u64, Errno>
        ensures some { IfOk result (λ expirations. 0 < expirations) }
    {
        let Description { timers, .. } = &*self.handle;
        let index = self.handle.index();
        let told = timers.state.lock(rt).timers.take_expirations(index);
        if let Some(expirations) = told {
            return Ok(expirations);
        }
        let now = clock::now(rt)?;
        let mut state = timers.state.lock(rt);
        state.timers.set_time(now);
        state.timers.take_expirations(index).ok_or(Errno::EAGAIN)
    }

    /// Whether the timer is due at some time to come. The clock's error is returned as in [`reset`](TimerFd::reset).
    pub fn is_armed<R: Wait + Clock>(&self, rt: &R) -> Result<bool, Errno> {
        let now = clock::now(rt)?;
        let mut state = self.handle.timers.state.lock(rt);
        state.timers.set_time(now);
        Ok(state.timers.is_armed(self.handle.index()))
    }

    /// Disarms the timer. Expirations that weren't taken are dropped.
    pub fn clear<R: Wait>(&self, rt: &R) -> Result<(), Errno>
        ensures { result ≡ Ok tt }
    {
        let index = self.handle.index();
        self.handle.timers.state.lock(rt).timers.disarm(index);
        Ok(())
    }
}

impl<C> AsRawFd for TimerFd<C> {
    ghost use Rattle.timerfd.specs.TimerFd.{descriptor_of};

    ghost descriptor = { descriptor_of };

    fn as_raw_fd(&self) -> RawFd {
        self.handle.fd
    }
}

//! A poller over a table that never sleeps, says what it was asked, and does something while it waits; and a counter that says how
//! often it was rung.

use crate::clock::Face;
use crate::expecting::expect_ok;
use crate::host::Looping;
use std::alloc::Global;
use std::sync::atomic::{AtomicU64, Ordering};
use std::sync::{Mutex, Wait};
use std::time::{Clock, Duration};
use timerfd::{TimedPoller, TimerFd};
use vmm_sys::counter::{Bell, Counter};
use vmm_sys::epoll::{AsRawFd, ControlOperation, Epoll, EpollEvent, RawFd};
use vmm_sys::errno::Errno;
use vmm_sys::eventfd::EventFd;
use vmm_sys::poller::Poller;

/// A counter of a table, whose rings are counted.
#[derive(Drop)]
pub struct Rung<'a> {
    counter: EventFd,
    rings: &'a AtomicU64,
    refusal: Option<Errno>,
}

impl AsRawFd for Rung<'_> {
    ghost use Rattle.vmm_sys.specs.EventFd.{descriptor_of};

    ghost descriptor = { λ v. descriptor_of v.counter };

    fn as_raw_fd(&self) -> RawFd {
        self.counter.as_raw_fd()
    }
}

impl Bell for Rung<'_> {
    ghost rings = { λ v answer. Unit {0} };

    fn ring<R: Wait + Clock>(&self, rt: &R) -> Result<(), Errno> {
        self.rings.fetch_add(1, Ordering::SeqCst);
        match self.refusal {
            Some(errno) => Err(errno),
            None => self.counter.ring(rt),
        }
    }
}

impl Counter for Rung<'_> {
    ghost clears = { λ v answer. Unit {0} };

    fn clear<R: Wait + Clock>(&self, rt: &R) -> Result<u64, Errno> {
        self.counter.clear(rt)
    }
}

/// What is done while a [`Probe`] waits.
#[derive(Drop)]
pub enum Deed<'a> {
    /// The timer is armed: it is due once, after this many nanoseconds.
    Arm(TimerFd<Rung<'a>>, u64),
    /// The clock shows this time from then on.
    Pass(&'a Face, u64),
    /// The wait fails.
    Fail(Errno),
}

/// The poller over a table.
#[derive(Drop)]
pub struct Probe<'a, R> {
    epoll: Epoll<R>,
    /// The limit of the last wait.
    pub ms: i32,
    /// How many entries the table reported to it.
    pub count: usize,
    /// What the last arming was answered.
    pub armed: Result<(), Errno>,
    deed: Mutex<Option<Deed<'a>>>,
    rt: R,
}

impl<'a, R: Wait + Clock> Probe<'a, R> {
    /// The next wait does this.
    pub fn plan(&self, rt: &R, deed: Deed<'a>) {
        *self.deed.lock(rt) = Some(deed);
    }

    // Does what is to be done, once.
    fn act(&mut self) -> Result<(), Errno> {
        let deed = self.deed.lock(&self.rt).take();
        match deed {
            None => Ok(()),
            Some(Deed::Fail(errno)) => Err(errno),
            Some(Deed::Pass(face, time)) => {
                face.set(time);
                Ok(())
            }
            Some(Deed::Arm(timer, nanoseconds)) => {
                let duration = Duration::from_nanos(nanoseconds);
                self.armed = timer.reset(duration, None, &self.rt);
                Ok(())
            }
        }
    }
}

impl<R: Wait + Clock + Clone + Send + Drop> Poller for Probe<'_, R> {
    ghost use base.Stored.{gnil};

    ghost meaning = { λ _. gnil };

    ghost may_ctl = { λ before op fd event answer after. Unit {0} };

    ghost may_wait = { λ before ms room answer entries after. Unit {0} };

    fn ctl(&mut self, op: ControlOperation, fd: RawFd, event: EpollEvent) -> Result<(), Errno> {
        self.epoll.ctl(op, fd, event)
    }

    fn wait(&mut self, ms: i32, buffer: &mut [EpollEvent]) -> Result<usize, Errno> {
        self.ms = ms;
        self.act()?;
        let count = self.epoll.wait(0, buffer)?;
        self.count = count;
        Ok(count)
    }
}

/// A poller with timers over a [`Probe`].
pub type OverProbe<'a, R> = TimedPoller<Probe<'a, R>, R, Rung<'a>>;

/// One over a new table, without a timer, whose counter refuses to be rung by this number, if any.
pub fn open_probe<'a, R: Looping>(
    rt: &R,
    alloc: Global,
    rings: &'a AtomicU64,
    refusal: Option<Errno>,
) -> OverProbe<'a, R> {
    let epoll = expect_ok(rt, Epoll::new(*rt, alloc));
    let rung = Rung {
        counter: expect_ok(rt, EventFd::new(&epoll, 0, rt)),
        rings,
        refusal,
    };
    let probe = Probe {
        epoll,
        ms: 0,
        count: 0,
        armed: Ok(()),
        deed: Mutex::new(None),
        rt: *rt,
    };
    expect_ok(rt, TimedPoller::new(probe, rung, *rt, alloc))
}

//! Timers as descriptors, and the subscriber that owns them all.

ghost use Rattle.std.specs.Prelude.{◌≡◌, true};

use event_manager::{
    Error, EventOps, EventPoller, EventSet, Events, MutEventSubscriber, Request, Result,
};
use std::alloc::Global;
use std::fmt;
use std::sync::Wait;
use std::time::{Clock, Duration};
use timerfd::{TimedPoller, TimerFd};

/// What is done at a timer's event, beside telling it.
#[derive(Clone, Copy)]
pub enum Then {
    /// Nothing: the timer was due once, and is disarmed.
    Rest,
    /// Nothing: the timer is due again after as long, and so on.
    Repeat,
    /// The timer of this number is cancelled.
    Cancel(usize),
    /// The timer is armed again, for twice as long.
    BackOff,
}

/// A timer that is wanted: its name, after how many milliseconds it is due, and what is done at its event.
pub type Plan = (&'static str, u64, Then);

/// A timer's event that was delivered.
#[derive(Clone, Copy)]
pub struct Delivery {
    /// What the clock showed; 0 where it answered an error.
    pub at: Duration,
    /// The timer's name.
    pub name: &'static str,
    /// How often it had expired; 0 where its own time hasn't come, as in a replay.
    pub expirations: u64,
}

impl fmt::Display for Delivery {
    fn fmt<W: fmt::Write>(&self, f: &mut fmt::Formatter<W>) -> fmt::Result {
        write!(f, "tick {}: {}", self.at.as_millis(), self.name)?;
        match self.expirations {
            1 => Ok(()),
            expirations => write!(f, " ({expirations} expirations)"),
        }
    }
}

/// A timer, and what is planned for it.
#[derive(Drop)]
struct Timer {
    fd: TimerFd,
    name: &'static str,
    after: u64,
    then: Then,
}

impl Timer {
    fn arm<R: Wait + Clock>(&self, rt: &R) -> Result<()> {
        let after = Duration::from_millis(self.after);
        let interval = matches!(self.then, Then::Repeat).then_some(after);
        self.fd.reset(after, interval, rt).map_err(Error::EventFd)
    }
}

/// Timers, and what was delivered of them. The data of a timer's event is its number: its place among the plans, from 0.
#[derive(Drop)]
pub struct Dispatcher<R> {
    timers: Vec<Timer>,
    additions: Vec<Request>,
    deliveries: Vec<Delivery>,
    // The first refusal.
    answer: Result<()>,
    stopped: bool,
    rt: R,
}

impl<R: Wait + Clock + Drop> Dispatcher<R> {
    /// Opens timers beside this poller, and arms them.
    ///
    /// `EventFd` with the number with which a timer is refused, or `OutOfMemory`.
    pub fn new<P>(timed: &TimedPoller<P, R>, plans: &[Plan], rt: R, alloc: Global) -> Result<Self> {
        let mut timers = Vec::new(alloc);
        let mut additions = Vec::new(alloc);
        for (number, (name, after, then)) in (0..).zip(plans) {
            let timer = Timer {
                fd: TimerFd::new(timed, &rt).map_err(Error::EventFd)?,
                name: *name,
                after: *after,
                then: *then,
            };
            timer.arm(&rt)?;
            let events = Events::with_data(&timer.fd, number, EventSet::IN);
            additions.push(Request::Add(events))?;
            timers.push(timer)?;
        }
        Ok(Dispatcher {
            timers,
            additions,
            deliveries: Vec::new(alloc),
            answer: Ok(()),
            stopped: false,
            rt,
        })
    }

    /// Sets it stopped; all else stays.
    pub fn stop(&mut self)
        ensures { self.new ≡ record self.old { stopped = true } }
    {
        self.stopped = true;
    }

    /// Whether it was stopped; or the first refusal, where something was refused.
    pub fn is_stopped(&self) -> Result<bool> {
        self.answer?;
        Ok(self.stopped)
    }

    /// What was delivered.
    pub fn into_deliveries(self) -> Vec<Delivery> {
        self.deliveries
    }

    // Tells the event of the timer of this number, and does what is then to be done.
    fn deliver(&mut self, number: u32) -> Result<()>
        ensures { self.new ≡ record self.old { timers = self.new.timers; deliveries = self.new.deliveries } }
    {
        let Some(timer) = self.timers.get_mut(number as usize) else {
            return Ok(());
        };
        self.deliveries.push(Delivery {
            at: self.rt.monotonic().unwrap_or(Duration::ZERO),
            name: timer.name,
            expirations: timer.fd.wait(&self.rt).unwrap_or(0),
        })?;
        match timer.then {
            Then::Rest | Then::Repeat => Ok(()),
            Then::BackOff => {
                timer.after = timer.after.saturating_mul(2);
                timer.arm(&self.rt)
            }
            Then::Cancel(other) => match self.timers.get(other) {
                Some(timer) => timer.fd.clear(&self.rt).map_err(Error::EventFd),
                None => Ok(()),
            },
        }
    }
}

/// `init` asks for the timers' descriptors, and no event asks for anything: a timer that is over is disarmed, and its
/// descriptor stays. An event changes timers and what was told of them, and nothing else.
impl<R: Wait + Clock + Drop> MutEventSubscriber for Dispatcher<R> {
    ghost use Rattle.std.specs.Prelude.{◌≡◌, []};
    ghost use Rattle.event_manager.specs.Exchange.{requests_of};

    ghost begins = { λ v exchanges w. (requests_of exchanges ≡ v.additions.items) × (w ≡ record v { answer = w.answer }) };

    ghost serves = { λ v event exchanges w. (exchanges ≡ []) × (w ≡ record v { timers = w.timers; deliveries = w.deliveries; answer = w.answer }) };

    fn process<P: EventPoller>(&mut self, events: Events, _ops: &mut EventOps<P>) {
        let answer = self.deliver(events.data());
        self.answer = self.answer.and(answer);
    }

    fn init<P: EventPoller>(&mut self, ops: &mut EventOps<P>) {
        let answer = ops.request_all(&self.additions);
        self.answer = answer.map_err(|refused| refused.error);
    }
}

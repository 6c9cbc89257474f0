//! The network device, in the shape of Firecracker's: it joins with its activation event alone, and asks for its queue, its
//! rate limiter and its tap once a driver has activated it.

ghost use Rattle.std.specs.Prelude.{◌≡◌, List};
ghost use Rattle.event_manager.specs.Exchange.{Exchanges};
ghost use Rattle.event_manager.specs.PollerCall.{PollerCall};
ghost use Rattle.event_manager.specs.Requests.{AreMadeThrough};
ghost use Rattle.device_loop.specs.NetEvents.{runtime_requests as wanted_at_runtime, IsSetUp};

use crate::statistics::{NetMetrics, Statistics};
use event_manager::{
    EventOps, EventPoller, EventSet, Events, MutEventSubscriber, RefusedRequest, Request, Result,
};
use std::sync::Wait;
use vmm_sys::epoll::Epoll;
use vmm_sys::errno::Errno;
use vmm_sys::eventfd::EventFd;
use vmm_sys::line::Line;

// The data of its events, by which it tells them apart.
const ACTIVATION: u32 = 0;

const QUEUE: u32 = 1;

const RATE_LIMITER: u32 = 2;

const TAP: u32 = 3;

/// A network device with one queue, which its driver kicks by adding to its counter.
#[derive(Drop)]
pub struct Net<R> {
    activation: EventFd,
    /// The driver kicks it by a handle of its own.
    pub queue: EventFd,
    // A counter in place of a bucket of tokens over a timer, which crates/rate_limiter has.
    rate_limiter: EventFd,
    /// Whoever is at the other end has a handle of its own.
    pub tap: Line,
    // The register that its driver sets.
    is_activated: bool,
    metrics: NetMetrics,
    // What its last request was answered, but for those of its activation.
    asked: Result<()>,
    // The first refusal of those.
    set_up: std::result::Result<(), RefusedRequest>,
    rt: R,
}

impl<R: Wait + Drop> Net<R> {
    /// A device that no driver has activated, over new descriptors of this table. Refused as these are.
    pub fn new(epoll: &Epoll<R>, rt: R) -> std::result::Result<Self, Errno> {
        Ok(Net {
            activation: EventFd::new(epoll, 0, &rt)?,
            queue: EventFd::new(epoll, 0, &rt)?,
            rate_limiter: EventFd::new(epoll, 0, &rt)?,
            tap: Line::new(epoll, &rt)?,
            is_activated: false,
            metrics: NetMetrics::default(),
            asked: Ok(()),
            set_up: Ok(()),
            rt,
        })
    }

    /// Sets the driver's register, and wakes the loop.
    pub fn activate(&mut self) -> std::result::Result<(), Errno> {
        self.is_activated = true;
        self.activation.write(1, &self.rt)
    }

    /// Gives the rate limiter `tokens` more.
    pub fn update_rate_limit(&self, tokens: u64) -> std::result::Result<(), Errno> {
        self.rate_limiter.write(tokens, &self.rt)
    }

    /// What it has counted; or the refusal, where a request was refused.
    pub fn statistics(&self) -> Result<Statistics> {
        self.asked?;
        self.set_up?;
        Ok(Statistics::Net(self.metrics))
    }

    // What it wants once it is activated.
    fn runtime_requests(&self) -> [Request; 3]
        ensures { result ≡ wanted_at_runtime self.now }
    {
        [
            Request::Add(Events::with_data(&self.queue, QUEUE, EventSet::IN)),
            Request::Add(Events::with_data(&self.rate_limiter, RATE_LIMITER, EventSet::IN)),
            Request::Add(Events::with_data(&self.tap, TAP, EventSet::IN)),
        ]
    }

    // Gives its activation event up, and asks for what it wants from now on.
    fn process_activation<P: EventPoller>(&mut self, ops: &mut EventOps<P>)
        ensures { (exchanges : Exchanges) × (calls : List PollerCall) × IsSetUp self.old exchanges self.new
            × AreMadeThrough P.controls P.waits ops.old ops.new exchanges calls }
    {
        let _ = self.activation.read(&self.rt);
        let activation = Events::with_data(&self.activation, ACTIVATION, EventSet::IN);
        let [queue, rate_limiter, tap] = self.runtime_requests();
        self.set_up = ops.request_all(&[Request::Remove(activation), queue, rate_limiter, tap]);
    }
}

impl<R: Wait + Drop> MutEventSubscriber for Net<R> {
    ghost use Rattle.std.specs.Prelude.{◌≡◌, ◌==◌, ◌≤◌, MatchBool, bit_and};
    ghost use Rattle.event_manager.specs.CounterEvents.{next_count};
    ghost use Rattle.event_manager.specs.Exchange.{AsksAndKeeps, AsksNothing};
    ghost use Rattle.event_manager.specs.Request.TheVariants.{Add, Remove};
    ghost use Rattle.device_loop.specs.NetEvents.{event_of, IsSetUp};

    // It asks for its activation event alone.
    ghost begins = { λ v exchanges w. AsksAndKeeps (Add (event_of v.activation 0)) w.asked exchanges × (w ≡ record v { asked = w.asked }) };

    // Nothing happens before it is activated. Then it asks for the rest at its activation event; adds up kicks and tokens; and
    // counts the inputs of its tap, or asks it out once the other end hung up.
    ghost serves = { λ v event exchanges w. MatchBool v.is_activated
        (MatchBool (event.payload == 0) (IsSetUp v exchanges w)
        (MatchBool (event.payload == 1) (AsksNothing exchanges × (v.metrics.kicks ≤ w.metrics.kicks) × (w ≡ record v { metrics = record v.metrics { kicks = w.metrics.kicks } }))
        (MatchBool (event.payload == 2) (AsksNothing exchanges × (v.metrics.tokens ≤ w.metrics.tokens) × (w ≡ record v { metrics = record v.metrics { tokens = w.metrics.tokens } }))
        (MatchBool (bit_and event.set 0x10 == 0x10) (AsksAndKeeps (Remove event) w.asked exchanges × (w ≡ record v { asked = w.asked }))
        (AsksNothing exchanges × (w ≡ record v { metrics = record v.metrics { inputs = next_count v.metrics.inputs } }))))))
        (AsksNothing exchanges × (w ≡ v)) };

    fn process<P: EventPoller>(&mut self, events: Events, ops: &mut EventOps<P>) {
        if !self.is_activated {
            return;
        }
        if events.data() == ACTIVATION {
            self.process_activation(ops);
        } else if events.data() == QUEUE {
            let kicks = self.queue.read(&self.rt).unwrap_or(0);
            self.metrics.kicks = self.metrics.kicks.saturating_add(kicks);
        } else if events.data() == RATE_LIMITER {
            let tokens = self.rate_limiter.read(&self.rt).unwrap_or(0);
            self.metrics.tokens = self.metrics.tokens.saturating_add(tokens);
        } else if events.event_set().contains(EventSet::HANG_UP) {
            self.asked = ops.remove(events);
        } else {
            self.metrics.inputs = self.metrics.inputs.saturating_add(1);
            let _ = self.tap.set(EventSet::empty(), &self.rt);
        }
    }

    fn init<P: EventPoller>(&mut self, ops: &mut EventOps<P>) {
        self.asked = ops.add(Events::with_data(&self.activation, ACTIVATION, EventSet::IN));
    }
}

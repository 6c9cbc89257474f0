//! The block device: it serves the requests of a ring that its driver fills on another thread, as far as its tokens reach.

ghost use Rattle.std.specs.Prelude.{◌≡◌};

use crate::ring::limiter::Limiter;
use crate::ring::{Ring, RingName};
use crate::statistics::{BlockMetrics, Statistics};
use event_manager::{
    Error, EventOps, EventPoller, EventSet, Events, MutEventSubscriber, Request, Result,
};
use std::sync::{Arc, Mutex, Wait};
use vmm_sys::epoll::Epoll;
use vmm_sys::errno::Errno;
use vmm_sys::eventfd::EventFd;

// The data of its events, which tells them apart.
const QUEUE: u32 = 0;

const REFILL: u32 = 1;

/// A block device with a ring, whose driver kicks it when it has queued a request.
#[derive(Drop)]
pub struct Block<Q: RingName, R> {
    /// The driver kicks it by a handle of its own.
    pub queue: EventFd,
    /// Whatever fills its bucket again has a handle of its own.
    pub refill: EventFd,
    ring: Arc<Mutex<Ring<Q>>>,
    limiter: Limiter<Q>,
    // The first refusal of what it asked for, also of memory.
    asked: Result<()>,
    rt: R,
}

impl<Q: RingName, R: Wait + Drop> Block<Q, R> {
    /// A device over this ring, with the ring's limiter and new descriptors of this table. Refused as these are.
    pub fn new(
        epoll: &Epoll<R>,
        ring: Arc<Mutex<Ring<Q>>>,
        limiter: Limiter<Q>,
        rt: R,
    ) -> std::result::Result<Self, Errno> {
        Ok(Block {
            queue: EventFd::new(epoll, 0, &rt)?,
            refill: EventFd::new(epoll, 0, &rt)?,
            ring,
            limiter,
            asked: Ok(()),
            rt,
        })
    }
}

impl<Q: RingName, R> Block<Q, R> {
    ghost use Rattle.device_loop.specs.Answers.{unless_refused};
    ghost use Rattle.device_loop.specs.BlockEvents.{queue_event, metrics_of};
    ghost use Rattle.device_loop.specs.Buckets.{paused};

    /// The events that it wants of its queue.
    pub fn kicks(&self) -> Events
        ensures { result ≡ queue_event self.now }
    {
        Events::with_data(&self.queue, QUEUE, EventSet::IN)
    }

    /// Pauses it, or lets it go on.
    pub fn set_paused(&mut self, is_paused: bool)
        ensures { self.new ≡ record self.old { limiter = paused is_paused self.old.limiter } }
    {
        self.limiter.set_paused(is_paused);
    }

    /// What it has counted; or the refusal, where a request was refused.
    pub fn statistics(&self) -> Result<Statistics>
        ensures { result ≡ unless_refused self.now.asked (metrics_of self.now) }
    {
        self.asked?;
        Ok(Statistics::Block(self.limiter.metrics()))
    }

    /// Its limiter.
    pub fn into_limiter(self) -> Limiter<Q>
    where
        R: Drop,
        ensures { result ≡ self.limiter }
    {
        let Block { limiter, .. } = self;
        limiter
    }
}

impl<Q: RingName, R: Wait> Block<Q, R> {
    ghost use Rattle.device_loop.specs.BlockEvents.{IsServed};

    fn serve(&mut self)
        ensures { IsServed self.old self.new }
    {
        let _ = self.queue.read(&self.rt);
        let mut ring = self.ring.lock(&self.rt);
        let served = self.limiter.serve(&mut ring);
        self.asked = self.asked.and(served.map_err(Error::from));
    }
}

impl<Q: RingName, R: Wait> MutEventSubscriber for Block<Q, R> {
    ghost use Rattle.std.specs.Prelude.{◌≡◌, [], ◌∷◌, MatchBool, is_some};
    ghost use Rattle.std.specs.Result.{result_and};
    ghost use Rattle.event_manager.specs.Exchange.{Answer, AsksNothing};
    ghost use Rattle.event_manager.specs.Request.TheVariants.{Add};
    ghost use Rattle.device_loop.specs.BlockEvents.{queue_event, refill_event, filled, IsServed};

    ghost begins = { λ v exchanges w. (queue refill : Answer) × (exchanges ≡ (Add (queue_event v), queue) ∷ (Add (refill_event v), refill) ∷ []) × (w ≡ record v { asked = result_and queue refill }) };

    // Its bucket is filled at the event for that. A paused device serves nothing; else each request costs a token that is there.
    ghost serves = { λ v event exchanges w. AsksNothing exchanges × MatchBool (is_some v.limiter.paused_at) (w ≡ filled event v) (IsServed (filled event v) w) };

    fn process<P: EventPoller>(&mut self, events: Events, _ops: &mut EventOps<P>) {
        if events.data() == REFILL {
            let _ = self.refill.read(&self.rt);
            self.limiter.refill();
        }
        if self.limiter.paused_at().is_some() {
            return;
        }
        self.serve();
    }

    fn init<P: EventPoller>(&mut self, ops: &mut EventOps<P>) {
        let refills = Events::with_data(&self.refill, REFILL, EventSet::IN);
        let (queue, refill) = ops.request_both(Request::Add(self.kicks()), Request::Add(refills));
        self.asked = queue.and(refill);
    }
}

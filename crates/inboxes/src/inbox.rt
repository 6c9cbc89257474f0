//! A receiver of a channel as a subscriber.

ghost use Rattle.std.specs.Prelude.{◌≡◌, [], false, Ok, Err, IfOk, IfErr};
ghost use Rattle.channels.specs.Ends.{counter_of_receiver};
ghost use Rattle.event_loop.specs.CounterEvents.{event_on, new_counter};

use channels::{Receiver, TrackedReceiver};
use event_loop::{Error, EventOps, EventPoller, EventSet, Events, MutEventSubscriber, Result};
use std::alloc::Global;
use std::marker::Model;
use std::mem;
use std::sync::Wait;
use std::time::Clock;

/// Gathers the messages of a channel for its loop, which takes them between two runs. Once the channel is over, it asks to be told
/// no more.
#[derive(Drop)]
pub struct Inbox<M, R> {
    receiver: TrackedReceiver<M>,
    ready: Events,
    arrived: Vec<M>,
    is_over: bool,
    // What its first request, or its last take, answered.
    went: Result<()>,
    rt: R,
}

impl<M, R> Model for Inbox<M, R> {
    ghost use Rattle.inboxes.specs.Inbox.{Gathered};

    ghost Value = { Gathered M };

    ghost view = { λ inbox. record { ready = inbox.ready; received = inbox.receiver.messages; arrived = inbox.arrived.items; is_over = inbox.is_over; went = inbox.went } };
}

impl<M: Drop, R: Drop> Inbox<M, R> {
    /// One in which nothing has arrived. It takes with this handle.
    pub fn new(receiver: Receiver<M>, alloc: Global, rt: R) -> Self
        ensures { result ≡ record { ready = event_on (new_counter (counter_of_receiver receiver)) 0; received = []; arrived = []; is_over = false; went = Ok tt } }
    {
        let ready = Events::new(&receiver, EventSet::IN);
        Inbox {
            receiver: TrackedReceiver::new(receiver),
            ready,
            arrived: Vec::new(alloc),
            is_over: false,
            went: Ok(()),
            rt,
        }
    }

    /// What has arrived since it was last taken. Refused as the request was by which it is told, or as its last take, for want of
    /// memory: then the messages wait still.
    pub fn take_arrived(&mut self) -> Result<Vec<M>>
        ensures arrived { IfOk result (λ all. (all.items ≡ self.old.arrived) × (self.old.went ≡ Ok tt) × (self.new ≡ record self.old { arrived = [] })) }
        ensures refused { IfErr result (λ error. (self.old.went ≡ Err error) × (self.new ≡ self.old)) }
    {
        self.went?;
        let empty = Vec::new(*self.arrived.allocator());
        Ok(mem::replace(&mut self.arrived, empty))
    }

    /// Whether nothing more will arrive.
    pub fn is_over(&self) -> bool
        ensures { result ≡ self.now.is_over }
    {
        self.is_over
    }
}

/// It asks to be told when it is added, and keeps the answer. At its event what comes stands behind what had arrived. It asks to be
/// told no more where its channel is over, and for nothing else.
impl<M: Drop, R: Wait + Clock + Drop> MutEventSubscriber for Inbox<M, R> {
    ghost use Rattle.std.specs.Prelude.{◌≡◌, List, [], ◌∷◌, ◌++◌, MatchBool, OnErr};
    ghost use Rattle.event_loop.specs.Exchange.{requests_of};
    ghost use Rattle.event_loop.specs.declared.events.Request.TheVariants.{Add, Remove};

    ghost begins = { λ v exchanges w. (exchanges ≡ (Add v.ready, w.went) ∷ []) × (w ≡ record v { went = w.went }) };

    ghost serves = { λ v event exchanges w. MatchBool w.is_over (requests_of exchanges ≡ Remove v.ready ∷ []) (requests_of exchanges ≡ [])
        × (w ≡ record v { received = w.received; arrived = w.arrived; is_over = w.is_over; went = w.went })
        × ((messages : List M) × (w.received ≡ v.received ++ messages) × (w.arrived ≡ v.arrived ++ messages) × OnErr w.went (messages ≡ [])) };

    fn process<P: EventPoller>(&mut self, _events: Events, ops: &mut EventOps<P>) {
        let taken = self.receiver.take(&mut self.arrived, &self.rt);
        self.went = taken.map_err(Error::from);
        self.is_over = self.receiver.is_over(&self.rt);
        if self.is_over {
            let _ = ops.remove(self.ready);
        }
    }

    fn init<P: EventPoller>(&mut self, ops: &mut EventOps<P>) {
        self.went = ops.add(self.ready);
    }
}

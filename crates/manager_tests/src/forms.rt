//! Subscribers of each form that docs/GUIDE.md shows: none has a line of proof by hand.

use event_manager::{
    EventOps, EventPoller, EventSet, Events, MutEventSubscriber, Priority, RefusedRequest, Request,
    Result, StepInput, StepSubscriber,
};
use std::sync::atomic::{AtomicU64, Ordering};
use std::sync::{Arc, Wait};
use vmm_sys::epoll::AsRawFd;
use vmm_sys::eventfd::EventFd;

/// Asks for its descriptor when it joins, and keeps the answer; at an event it asks for nothing.
#[derive(Drop)]
pub struct Counting {
    pub own: Events,
    pub answer: Result<()>,
    pub seen: u64,
}

impl MutEventSubscriber for Counting {
    ghost use Rattle.std.specs.Prelude.{◌≡◌};
    ghost use Rattle.event_manager.specs.CounterEvents.{next_count};
    ghost use Rattle.event_manager.specs.Exchange.{AsksAndKeeps, AsksNothing};
    ghost use Rattle.event_manager.specs.Request.TheVariants.{Add};

    ghost begins = { λ v exchanges w. AsksAndKeeps (Add v.own) w.answer exchanges × (w ≡ record v { answer = w.answer }) };

    ghost serves = { λ v event exchanges w. AsksNothing exchanges × (w ≡ record v { seen = next_count v.seen }) };

    fn process<P: EventPoller>(&mut self, _events: Events, _ops: &mut EventOps<P>) {
        self.seen = self.seen.saturating_add(1);
    }

    fn init<P: EventPoller>(&mut self, ops: &mut EventOps<P>) {
        self.answer = ops.add(self.own);
    }
}

/// Adds its descriptor with high priority, and keeps the answer.
#[derive(Drop)]
pub struct Urgent {
    pub own: Events,
    pub answer: Result<()>,
}

impl MutEventSubscriber for Urgent {
    ghost use Rattle.std.specs.Prelude.{◌≡◌};
    ghost use Rattle.event_manager.specs.Exchange.{AsksAndKeeps, AsksNothing};
    ghost use Rattle.event_manager.specs.Request.TheVariants.{AddWithPriority};
    ghost use Rattle.event_manager.specs.declared.Priority.TheVariants.{High};

    ghost begins = { λ v exchanges w. AsksAndKeeps (AddWithPriority v.own High) w.answer exchanges × (w ≡ record v { answer = w.answer }) };

    ghost serves = { λ v event exchanges w. AsksNothing exchanges × (w ≡ v) };

    fn process<P: EventPoller>(&mut self, _events: Events, _ops: &mut EventOps<P>) {}

    fn init<P: EventPoller>(&mut self, ops: &mut EventOps<P>) {
        self.answer = ops.add_with_priority(self.own, Priority::High);
    }
}

/// Adds up what it reads of its counter, and removes it once that comes to 10 or more. Keeps its last answer.
#[derive(Drop)]
pub struct Filling<R> {
    pub own: Events,
    pub counter: EventFd,
    pub total: u64,
    pub answer: Result<()>,
    pub rt: R,
}

impl<R: Wait> MutEventSubscriber for Filling<R> {
    ghost use Rattle.std.specs.Prelude.{◌≡◌, ◌≤◌, nat_le, MatchBool};
    ghost use Rattle.event_manager.specs.Exchange.{AsksAndKeeps, AsksNothing};
    ghost use Rattle.event_manager.specs.Request.TheVariants.{Add, Remove};

    ghost begins = { λ v exchanges w. AsksAndKeeps (Add v.own) w.answer exchanges × (w ≡ record v { answer = w.answer }) };

    ghost serves = { λ v event exchanges w. (v.total ≤ w.total) × MatchBool (nat_le 10 w.total)
        (AsksAndKeeps (Remove v.own) w.answer exchanges × (w ≡ record v { total = w.total; answer = w.answer }))
        (AsksNothing exchanges × (w ≡ record v { total = w.total })) };

    fn process<P: EventPoller>(&mut self, _events: Events, ops: &mut EventOps<P>) {
        let read = self.counter.read(&self.rt).unwrap_or(0);
        self.total = self.total.saturating_add(read);
        if self.total >= 10 {
            self.answer = ops.remove(self.own);
        }
    }

    fn init<P: EventPoller>(&mut self, ops: &mut EventOps<P>) {
        self.answer = ops.add(self.own);
    }
}

/// Removes the descriptor of an event whose set is `HANG_UP` and nothing else.
#[derive(Drop)]
pub struct Leaving {
    pub own: Events,
    pub seen: u64,
}

impl MutEventSubscriber for Leaving {
    ghost use Rattle.std.specs.Prelude.{◌==◌, MatchBool};
    ghost use Rattle.event_manager.specs.Exchange.{AsksNothing, AsksToAdd, AsksToRemove};

    ghost begins = { λ v exchanges w. AsksToAdd v.own exchanges };

    ghost serves = { λ v event exchanges w. MatchBool (event.set == 16) (AsksToRemove event exchanges) (AsksNothing exchanges) };

    fn process<P: EventPoller>(&mut self, events: Events, ops: &mut EventOps<P>) {
        self.seen = self.seen.saturating_add(1);
        if events.event_set() == EventSet::HANG_UP {
            let _ = ops.remove(events);
        }
    }

    fn init<P: EventPoller>(&mut self, ops: &mut EventOps<P>) {
        let _ = ops.add(self.own);
    }
}

/// Removes the descriptor of an event whose data is 0.
#[derive(Drop)]
pub struct Numbered {
    pub own: Events,
    pub seen: u64,
}

impl MutEventSubscriber for Numbered {
    ghost use Rattle.std.specs.Prelude.{◌==◌, MatchBool};
    ghost use Rattle.event_manager.specs.Exchange.{AsksNothing, AsksToAdd, AsksToRemove};

    ghost begins = { λ v exchanges w. AsksToAdd v.own exchanges };

    ghost serves = { λ v event exchanges w. MatchBool (event.payload == 0) (AsksToRemove event exchanges) (AsksNothing exchanges) };

    fn process<P: EventPoller>(&mut self, events: Events, ops: &mut EventOps<P>) {
        self.seen = self.seen.saturating_add(1);
        if events.data() == 0 {
            let _ = ops.remove(events);
        }
    }

    fn init<P: EventPoller>(&mut self, ops: &mut EventOps<P>) {
        let _ = ops.add(self.own);
    }
}

/// Counts the events of its counter, and removes the descriptor of any other event. Keeps its last answer.
#[derive(Drop)]
pub struct Matching {
    pub counter: EventFd,
    pub answer: Result<()>,
    pub seen: u64,
}

impl MutEventSubscriber for Matching {
    ghost use Rattle.std.specs.Prelude.{◌≡◌, MatchBool, pos, unsigned_abs};
    ghost use Rattle.std.specs.Ordering.{int_eq};
    ghost use Rattle.event_manager.specs.CounterEvents.{next_count};
    ghost use Rattle.event_manager.specs.Exchange.{AsksAndKeeps, AsksNothing};
    ghost use Rattle.event_manager.specs.Request.TheVariants.{Add, Remove};
    ghost use Rattle.vmm_sys.specs.EventFd.{descriptor_of};

    ghost begins = { λ v exchanges w. AsksAndKeeps (Add (record { fd = unsigned_abs (descriptor_of v.counter); payload = 0; set = 9 })) w.answer exchanges × (w ≡ record v { answer = w.answer }) };

    ghost serves = { λ v event exchanges w. MatchBool (int_eq (pos event.fd) (descriptor_of v.counter))
        (AsksNothing exchanges × (w ≡ record v { seen = next_count v.seen }))
        (AsksAndKeeps (Remove event) w.answer exchanges × (w ≡ record v { answer = w.answer })) };

    fn process<P: EventPoller>(&mut self, events: Events, ops: &mut EventOps<P>) {
        if events.fd() == self.counter.as_raw_fd() {
            self.seen = self.seen.saturating_add(1);
        } else {
            self.answer = ops.remove(events);
        }
    }

    fn init<P: EventPoller>(&mut self, ops: &mut EventOps<P>) {
        self.answer = ops.add(Events::new(&self.counter, EventSet::IN | EventSet::ERROR));
    }
}

/// At each event removes its descriptor and adds it again.
#[derive(Drop)]
pub struct Renewing {
    pub own: Events,
    pub seen: u64,
}

impl MutEventSubscriber for Renewing {
    ghost use Rattle.std.specs.Prelude.{◌≡◌, [], ◌∷◌};
    ghost use Rattle.event_manager.specs.Exchange.{Answer, AsksToAdd};
    ghost use Rattle.event_manager.specs.Request.TheVariants.{Add, Remove};

    ghost begins = { λ v exchanges w. AsksToAdd v.own exchanges };

    ghost serves = { λ v event exchanges w. (first second : Answer) × (exchanges ≡ (Remove v.own, first) ∷ (Add v.own, second) ∷ []) };

    fn process<P: EventPoller>(&mut self, _events: Events, ops: &mut EventOps<P>) {
        self.seen = self.seen.saturating_add(1);
        let _ = ops.request_both(Request::Remove(self.own), Request::Add(self.own));
    }

    fn init<P: EventPoller>(&mut self, ops: &mut EventOps<P>) {
        let _ = ops.add(self.own);
    }
}

/// Asks for three descriptors when it joins, and lets them all go at an event. Keeps the first refusal of the last three.
#[derive(Drop)]
pub struct Group {
    pub own: [Events; 3],
    pub answer: std::result::Result<(), RefusedRequest>,
    pub seen: u64,
}

impl MutEventSubscriber for Group {
    ghost use Rattle.std.specs.Prelude.{◌≡◌, map};
    ghost use Rattle.event_manager.specs.CounterEvents.{next_count};
    ghost use Rattle.event_manager.specs.Exchange.{AsksAllAndKeeps};
    ghost use Rattle.event_manager.specs.Request.TheVariants.{Add, Remove};

    ghost begins = { λ v exchanges w. AsksAllAndKeeps (map Add v.own) w.answer exchanges × (w ≡ record v { answer = w.answer }) };

    ghost serves = { λ v event exchanges w. AsksAllAndKeeps (map Remove v.own) w.answer exchanges × (w ≡ record v { answer = w.answer; seen = next_count v.seen }) };

    fn process<P: EventPoller>(&mut self, _events: Events, ops: &mut EventOps<P>) {
        self.seen = self.seen.saturating_add(1);
        let [first, second, third] = self.own;
        let removals = [
            Request::Remove(first),
            Request::Remove(second),
            Request::Remove(third),
        ];
        self.answer = ops.request_all(&removals);
    }

    fn init<P: EventPoller>(&mut self, ops: &mut EventOps<P>) {
        let [first, second, third] = self.own;
        let additions = [
            Request::Add(first),
            Request::Add(second),
            Request::Add(third),
        ];
        self.answer = ops.request_all(&additions);
    }
}

/// To be boxed: asks for its descriptor when it joins, and removes it at an event whose set is `HANG_UP` and nothing else.
#[derive(Drop)]
pub struct Boxable {
    pub own: Events,
    pub seen: Arc<AtomicU64>,
}

impl StepSubscriber for Boxable {
    ghost use Rattle.manager_tests.specs.Boxable.{boxable_wants};

    ghost requests = { boxable_wants };

    ghost requests_left = { λ v. 0 };

    fn next(&mut self, input: StepInput) -> Option<Request> {
        match input {
            StepInput::Init => Some(Request::Add(self.own)),
            StepInput::Event(events) => {
                self.seen.fetch_add(1, Ordering::SeqCst);
                if events.event_set() == EventSet::HANG_UP {
                    Some(Request::Remove(events))
                } else {
                    None
                }
            }
            StepInput::Answer(_) => None,
        }
    }
}

//! Subscribers behind pointers, in cells and under locks, and one of two kinds.

ghost use Rattle.std.specs.Prelude.{◌≡◌, [], ◌⊎◌};
ghost use Rattle.std.specs.Arc.{arc_value};
ghost use Rattle.event_loop.specs.EitherSubscriber.{either_begins, either_serves};

use crate::events::Events;
use crate::ops::EventOps;
use crate::poller::EventPoller;
use crate::subscribers::{EventSubscriber, MutEventSubscriber};
use std::cell::RefCell;
use std::rc::Rc;
use std::sync::{Arc, Mutex, Wait};

impl<T: EventSubscriber> EventSubscriber for Arc<T> {
    ghost begins_shared = { λ v exchanges. T.begins_shared (arc_value v) exchanges };

    ghost serves_shared = { λ v event exchanges. T.serves_shared (arc_value v) event exchanges };

    fn process<P: EventPoller>(&self, events: Events, ops: &mut EventOps<P>) {
        (**self).process(events, ops)
    }

    fn init<P: EventPoller>(&self, ops: &mut EventOps<P>) {
        (**self).init(ops)
    }
}

impl<T: EventSubscriber> MutEventSubscriber for Arc<T> {
    ghost begins = { λ v exchanges w. (w ≡ v) × T.begins_shared (arc_value v) exchanges };

    ghost serves = { λ v event exchanges w. (w ≡ v) × T.serves_shared (arc_value v) event exchanges };

    fn process<P: EventPoller>(&mut self, events: Events, ops: &mut EventOps<P>) {
        (**self).process(events, ops)
    }

    fn init<P: EventPoller>(&mut self, ops: &mut EventOps<P>) {
        (**self).init(ops)
    }
}

impl<T: EventSubscriber> EventSubscriber for Rc<T> {
    ghost begins_shared = { λ v exchanges. T.begins_shared v.value exchanges };

    ghost serves_shared = { λ v event exchanges. T.serves_shared v.value event exchanges };

    fn process<P: EventPoller>(&self, events: Events, ops: &mut EventOps<P>) {
        (**self).process(events, ops)
    }

    fn init<P: EventPoller>(&self, ops: &mut EventOps<P>) {
        (**self).init(ops)
    }
}

impl<T: EventSubscriber> MutEventSubscriber for Rc<T> {
    ghost begins = { λ v exchanges w. (w ≡ v) × T.begins_shared v.value exchanges };

    ghost serves = { λ v event exchanges w. (w ≡ v) × T.serves_shared v.value event exchanges };

    fn process<P: EventPoller>(&mut self, events: Events, ops: &mut EventOps<P>) {
        (**self).process(events, ops)
    }

    fn init<P: EventPoller>(&mut self, ops: &mut EventOps<P>) {
        (**self).init(ops)
    }
}

impl<T: EventSubscriber> EventSubscriber for Box<T> {
    ghost begins_shared = { λ v exchanges. T.begins_shared v.value exchanges };

    ghost serves_shared = { λ v event exchanges. T.serves_shared v.value event exchanges };

    fn process<P: EventPoller>(&self, events: Events, ops: &mut EventOps<P>) {
        (**self).process(events, ops)
    }

    fn init<P: EventPoller>(&self, ops: &mut EventOps<P>) {
        (**self).init(ops)
    }
}

impl<T: MutEventSubscriber> MutEventSubscriber for Box<T> {
    ghost begins = { λ v exchanges w. T.begins v.value exchanges w.value };

    ghost serves = { λ v event exchanges w. T.serves v.value event exchanges w.value };

    fn process<P: EventPoller>(&mut self, events: Events, ops: &mut EventOps<P>) {
        (**self).process(events, ops)
    }

    fn init<P: EventPoller>(&mut self, ops: &mut EventOps<P>) {
        (**self).init(ops)
    }
}

/// Calls the subscriber in the cell; where the cell is borrowed the call is skipped (event-manager panics). Nothing is claimed of
/// what the cell holds: the exchanges are some that the held type may make, or none, which the relation allows of a free cell too.
impl<T: MutEventSubscriber> EventSubscriber for RefCell<T> {
    ghost begins_shared = { λ v exchanges. (exchanges ≡ []) ⊎ ((x y : T) × T.begins x exchanges y) };

    ghost serves_shared = { λ v event exchanges. (exchanges ≡ []) ⊎ ((x y : T) × T.serves x event exchanges y) };

    fn process<P: EventPoller>(&self, events: Events, ops: &mut EventOps<P>) {
        if let Ok(mut held) = self.try_borrow_mut() {
            held.process(events, ops);
        }
    }

    fn init<P: EventPoller>(&self, ops: &mut EventOps<P>) {
        if let Ok(mut held) = self.try_borrow_mut() {
            held.init(ops);
        }
    }
}

impl<T: MutEventSubscriber> MutEventSubscriber for RefCell<T> {
    ghost begins = { λ v exchanges w. (exchanges ≡ []) ⊎ ((x y : T) × T.begins x exchanges y) };

    ghost serves = { λ v event exchanges w. (exchanges ≡ []) ⊎ ((x y : T) × T.serves x event exchanges y) };

    fn process<P: EventPoller>(&mut self, events: Events, ops: &mut EventOps<P>) {
        EventSubscriber::process(&*self, events, ops)
    }

    fn init<P: EventPoller>(&mut self, ops: &mut EventOps<P>) {
        EventSubscriber::init(&*self, ops)
    }
}

/// A subscriber under a lock, with the handle by which its calls wait for that lock; they free it when they end. In place of
/// event-manager's `Mutex`. Nothing is claimed of what the lock guards: the exchanges are some that the held type may make.
#[derive(Drop)]
pub struct Locked<T, R> {
    /// The subscriber; others lock it as they do std's.
    pub mutex: Mutex<T>,
    rt: R,
}

impl<T, R: Wait> Locked<T, R> {
    /// The subscriber under a new lock.
    pub fn new(value: T, rt: R) -> Self {
        Locked {
            mutex: Mutex::new(value),
            rt,
        }
    }
}

impl<T: MutEventSubscriber, R: Wait> EventSubscriber for Locked<T, R> {
    ghost begins_shared = { λ v exchanges. (x y : T) × T.begins x exchanges y };

    ghost serves_shared = { λ v event exchanges. (x y : T) × T.serves x event exchanges y };

    fn process<P: EventPoller>(&self, events: Events, ops: &mut EventOps<P>) {
        let mut held = self.mutex.lock(&self.rt);
        held.process(events, ops);
    }

    fn init<P: EventPoller>(&self, ops: &mut EventOps<P>) {
        let mut held = self.mutex.lock(&self.rt);
        held.init(ops);
    }
}

impl<T: MutEventSubscriber, R: Wait> MutEventSubscriber for Locked<T, R> {
    ghost begins = { λ v exchanges w. (x y : T) × T.begins x exchanges y };

    ghost serves = { λ v event exchanges w. (x y : T) × T.serves x event exchanges y };

    fn process<P: EventPoller>(&mut self, events: Events, ops: &mut EventOps<P>) {
        EventSubscriber::process(&*self, events, ops)
    }

    fn init<P: EventPoller>(&mut self, ops: &mut EventOps<P>) {
        EventSubscriber::init(&*self, ops)
    }
}

/// A subscriber of one of two types, which never changes; a manager of these holds both. For more types, nest them.
#[derive(Drop)]
pub enum Either<A, B> {
    /// Of the first type.
    First(A),
    /// Of the second type.
    Second(B),
}

impl<A: MutEventSubscriber, B: MutEventSubscriber> MutEventSubscriber for Either<A, B> {
    ghost begins = { either_begins A.begins B.begins };

    ghost serves = { either_serves A.serves B.serves };

    fn process<P: EventPoller>(&mut self, events: Events, ops: &mut EventOps<P>) {
        match self {
            Either::First(subscriber) => subscriber.process(events, ops),
            Either::Second(subscriber) => subscriber.process(events, ops),
        }
    }

    fn init<P: EventPoller>(&mut self, ops: &mut EventOps<P>) {
        match self {
            Either::First(subscriber) => subscriber.init(ops),
            Either::Second(subscriber) => subscriber.init(ops),
        }
    }
}

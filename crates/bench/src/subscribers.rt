//! The subscribers of the measures, and the job that is done on one.

ghost use Rattle.std.specs.Prelude.{◌≤ℤ◌, pos};

use event_manager::{
    Action, ActionOn, EventOps, EventPoller, EventSet, Events, MutEventSubscriber, Result,
    SubscriberId,
};
use measures::fixed::FIRST;
use std::sync::Wait;
use std::time::Clock;
use vmm_sys::eventfd::EventFd;

/// The descriptor of a number that is counted from the lowest; the highest there is where it would be above.
pub fn descriptor(number: u32) -> i32
    ensures { pos 0 ≤ℤ result }
{
    number.saturating_add(FIRST as u32).min(2147483647) as i32
}

/// Asks for its descriptors when it joins, and counts the events that it is given.
#[derive(Drop)]
pub struct Counter {
    first: i32,
    descriptors: u16,
    count: u64,
    // The first refusal.
    answer: Result<()>,
}

impl Counter {
    ghost use Rattle.std.specs.Prelude.{◌≡◌};
    ghost use Rattle.event_manager.specs.CounterEvents.{next_count};

    /// One of `descriptors` descriptors from `first` up.
    pub fn new(first: i32, descriptors: u16) -> Counter {
        Counter {
            first,
            descriptors,
            count: 0,
            answer: Ok(()),
        }
    }

    /// Counts one more.
    pub fn count_one(&mut self)
        ensures { self.new ≡ record self.old { count = next_count self.old.count } }
    {
        self.count = self.count.saturating_add(1);
    }

    /// What it has counted; or the refusal of the first of its requests that was refused.
    pub fn counted(&self) -> Result<u64> {
        self.answer?;
        Ok(self.count)
    }
}

impl MutEventSubscriber for Counter {
    ghost use Rattle.std.specs.Prelude.{◌≡◌, []};
    ghost use Rattle.event_manager.specs.CounterEvents.{next_count};

    ghost begins = { λ v exchanges w. w.count ≡ v.count };

    ghost serves = { λ v event exchanges w. (exchanges ≡ []) × (w ≡ record v { count = next_count v.count }) };

    fn process<P: EventPoller>(&mut self, _events: Events, _ops: &mut EventOps<P>) {
        self.count_one();
    }

    fn init<P: EventPoller>(&mut self, ops: &mut EventOps<P>) {
        for k in 0..self.descriptors {
            let fd = self.first.saturating_add(k as i32).max(0);
            self.answer = self.answer.and(ops.add(Events::new_raw(fd, EventSet::IN)));
        }
    }
}

/// Counts one more, and replies what is then counted.
#[derive(Clone, Copy)]
pub struct CountOne;

impl Action<Counter> for CountOne {
    type Reply = u64;

    ghost use Rattle.std.specs.Prelude.{◌≡◌};
    ghost use Rattle.event_manager.specs.CounterEvents.{next_count};

    ghost does = { λ self v reply w. (reply ≡ next_count v.count) × (w ≡ record v { count = next_count v.count }) };

    fn act<W: Wait + Clock>(self, counter: &mut Counter, _rt: &W) -> u64 {
        counter.count_one();
        counter.count
    }
}

/// The job that counts one more at the counter of the id.
pub fn count_at(subscriber: SubscriberId) -> ActionOn<CountOne> {
    ActionOn {
        subscriber,
        action: CountOne,
    }
}

/// Owns descriptors from 10 up; at each event it removes one of them and adds it again, and goes round among those behind
/// the first `skip`.
#[derive(Drop)]
pub struct Toggler {
    descriptors: u16,
    skip: u16,
    last_turn: u16,
    turn: u16,
    count: u64,
    // The first refusal.
    answer: Result<()>,
}

impl Toggler {
    /// One of `descriptors` descriptors, which leaves the first `skip` of them as they are.
    pub fn new(descriptors: u16, skip: u16) -> Toggler {
        Toggler {
            descriptors,
            skip,
            last_turn: descriptors.saturating_sub(skip).saturating_sub(1),
            turn: 0,
            count: 0,
            answer: Ok(()),
        }
    }

    fn next_turn(&self) -> u16 {
        if self.turn < self.last_turn {
            self.turn + 1
        } else {
            0
        }
    }

    /// How many events it was given; or the refusal of the first of its requests that was refused.
    pub fn counted(&self) -> Result<u64> {
        self.answer?;
        Ok(self.count)
    }
}

impl MutEventSubscriber for Toggler {
    ghost use Rattle.std.specs.Prelude.{◌≡◌, ◌+◌, [], ◌∷◌};
    ghost use Rattle.event_manager.specs.Exchange.{Answer};
    ghost use Rattle.event_manager.specs.Request.TheVariants.{Add, Remove};

    ghost begins = { λ v exchanges w. w.count ≡ v.count };

    // It asks to remove the descriptor whose turn it is, and then to add it.
    ghost serves = { λ v event exchanges w. (removed added : Answer)
        × (exchanges ≡ (Remove (record { fd = 10 + v.skip + v.turn; payload = 0; set = 0 }), removed) ∷ (Add (record { fd = 10 + v.skip + v.turn; payload = 0; set = 1 }), added) ∷ []) };

    fn process<P: EventPoller>(&mut self, _events: Events, ops: &mut EventOps<P>) {
        self.count = self.count.saturating_add(1);
        let fd = FIRST as i32 + self.skip as i32 + self.turn as i32;
        self.turn = self.next_turn();
        let removed = ops.remove(Events::empty_raw(fd));
        let added = ops.add(Events::new_raw(fd, EventSet::IN));
        self.answer = self.answer.and(removed).and(added);
    }

    fn init<P: EventPoller>(&mut self, ops: &mut EventOps<P>) {
        for k in 0..self.descriptors {
            let fd = FIRST as i32 + k as i32;
            self.answer = self.answer.and(ops.add(Events::new_raw(fd, EventSet::IN)));
        }
    }
}

/// Asks for its counter when it joins, and reads it at each event.
pub struct Reader<R> {
    /// The counter.
    pub counter: EventFd,
    /// What it has read in all, up to `u64::MAX`.
    pub sum: u64,
    /// Its handle.
    pub rt: R,
}

// Not derived: then who owns one has a call to prove, and not a drop of all that is in it.
impl<R: Drop> Drop for Reader<R> {
    fn drop(self) {
        let Reader {
            counter: _,
            sum: _,
            rt: _,
        } = self;
    }
}

impl<R: Wait> MutEventSubscriber for Reader<R> {
    ghost use Rattle.std.specs.Prelude.{◌≡◌, [], ◌∷◌, unsigned_abs};
    ghost use Rattle.event_manager.specs.Exchange.{Answer};
    ghost use Rattle.event_manager.specs.Request.TheVariants.{Add};
    ghost use Rattle.vmm_sys.specs.EventFd.{descriptor_of};

    ghost begins = { λ v exchanges w. (answer : Answer) × (exchanges ≡ (Add (record { fd = unsigned_abs (descriptor_of v.counter); payload = 0; set = 1 }), answer) ∷ []) × (w ≡ v) };

    ghost serves = { λ v event exchanges w. exchanges ≡ [] };

    fn process<P: EventPoller>(&mut self, _events: Events, _ops: &mut EventOps<P>) {
        let read = self.counter.read(&self.rt).unwrap_or(0);
        self.sum = self.sum.saturating_add(read);
    }

    fn init<P: EventPoller>(&mut self, ops: &mut EventOps<P>) {
        let _ = ops.add(Events::new(&self.counter, EventSet::IN));
    }
}

//! A device with a queue, whose requests are limited by a bucket of tokens.

use event_loop::{
    Error, EventOps, EventPoller, EventSet, Events, MutEventSubscriber, Request, Result,
};
use std::fmt;
use std::sync::Wait;
use std::time::{Clock, Duration};
use timerfd::TimerFd;
use vmm_sys::eventfd::EventFd;

/// The data of the timer's event; that of the queue's is 0.
const REFILL: u32 = 1;

/// How many tokens a full bucket has.
const SIZE: u64 = 3;

/// How many milliseconds an empty bucket stays empty.
const REFILL_AFTER: u64 = 3;

/// A device with a queue. The guest puts requests in by adding to the queue's counter, and each that is served costs a token of
/// the bucket. While that is empty the queue's descriptor is out of the loop, where it would be reported again and again.
#[derive(Drop)]
pub struct Device<R> {
    queue: EventFd,
    timer: TimerFd,
    // What is wanted of either.
    kicks: Events,
    refills: Events,
    // How many requests waited at the queue's last event.
    found: u64,
    tokens: u64,
    served: u64,
    is_out: bool,
    // The first refusal.
    answer: Result<()>,
    rt: R,
}

impl<R: Wait + Clock> Device<R> {
    /// A device with a full bucket, over this queue and this timer.
    pub fn new(queue: EventFd, timer: TimerFd, rt: R) -> Self {
        Device {
            kicks: Events::new(&queue, EventSet::IN),
            refills: Events::with_data(&timer, REFILL, EventSet::IN),
            queue,
            timer,
            found: 0,
            tokens: SIZE,
            served: 0,
            is_out: false,
            answer: Ok(()),
            rt,
        }
    }

    /// The device; or the first refusal, where something was refused.
    pub fn answered(&self) -> Result<&Self> {
        self.answer?;
        Ok(self)
    }
}

impl<R> fmt::Display for Device<R> {
    fn fmt<W: fmt::Write>(&self, f: &mut fmt::Formatter<W>) -> fmt::Result {
        let place = if self.is_out { "out of" } else { "in" };
        write!(
            f,
            "found {}, served {}, tokens {}, {place} the loop",
            self.found, self.served, self.tokens
        )
    }
}

/// It asks for the queue and the timer. At the queue's event it serves as many of the requests that it finds there as there are
/// tokens, each for one, and exactly where none is left it asks to take the queue out. At the timer's the bucket is full, and
/// exactly where the queue was out it asks to put it in again.
impl<R: Wait + Clock> MutEventSubscriber for Device<R> {
    ghost use Rattle.std.specs.Prelude.{◌≡◌, ◌+◌, ◌-◌, ◌==◌, [], ◌∷◌, min, false, is_ok, is_err, MatchBool};
    ghost use Rattle.event_loop.specs.Exchange.{Answer};
    ghost use Rattle.event_loop.specs.declared.events.Request.TheVariants.{Add, Remove};

    ghost begins = { λ v exchanges w. (queue timer : Answer) × (exchanges ≡ (Add v.kicks, queue) ∷ (Add v.refills, timer) ∷ []) × (w ≡ record v { is_out = is_err queue; answer = w.answer }) };

    ghost serves = { λ v event exchanges w. MatchBool (event.payload == 1)
        ((w ≡ record v { tokens = 3; is_out = w.is_out; answer = w.answer }) × MatchBool v.is_out
        ((answer : Answer) × (exchanges ≡ (Add v.kicks, answer) ∷ []) × (w.is_out ≡ is_err answer))
        ((exchanges ≡ []) × (w.is_out ≡ false)))
        ((w ≡ record v { found = w.found; tokens = v.tokens - min w.found v.tokens; served = min (v.served + min w.found v.tokens) 18446744073709551615; is_out = w.is_out; answer = w.answer }) × MatchBool (w.tokens == 0)
        ((answer : Answer) × (exchanges ≡ (Remove v.kicks, answer) ∷ []) × (w.is_out ≡ is_ok answer))
        ((exchanges ≡ []) × (w.is_out ≡ v.is_out))) };

    fn process<P: EventPoller>(&mut self, events: Events, ops: &mut EventOps<P>) {
        if events.data() == REFILL {
            self.tokens = SIZE;
            let _ = self.timer.wait(&self.rt);
            if self.is_out {
                let added = ops.add(self.kicks);
                self.is_out = added.is_err();
                self.answer = self.answer.and(added);
            }
            return;
        }
        let waiting = self.queue.read(&self.rt).unwrap_or(0);
        self.found = waiting;
        let count = waiting.min(self.tokens);
        self.tokens -= count;
        self.served = self.served.saturating_add(count);
        let left = self.queue.write(waiting - count, &self.rt);
        self.answer = self.answer.and(left.map_err(Error::EventFd));
        if self.tokens == 0 {
            let after = Duration::from_millis(REFILL_AFTER);
            let armed = self.timer.reset(after, None, &self.rt);
            let removed = ops.remove(self.kicks);
            self.is_out = removed.is_ok();
            self.answer = self.answer.and(removed).and(armed.map_err(Error::EventFd));
        }
    }

    fn init<P: EventPoller>(&mut self, ops: &mut EventOps<P>) {
        let (queue, timer) = ops.request_both(Request::Add(self.kicks), Request::Add(self.refills));
        self.is_out = queue.is_err();
        self.answer = queue.and(timer);
    }
}

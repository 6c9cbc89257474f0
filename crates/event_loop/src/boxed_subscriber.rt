//! Subscribers of several kinds in boxes.

ghost use Rattle.std.specs.Prelude.{◌≡◌, ℕ, List, Option, None};
ghost use Rattle.event_loop.specs.PollerCall.{PollerCall};
ghost use Rattle.event_loop.specs.Exchange.{Exchanges};
ghost use Rattle.event_loop.specs.Requests.{AreMadeThrough};
ghost use Rattle.event_loop.specs.StepExchanges.{HoldsNow, Reaches, LeavesFewer};
ghost use Rattle.event_loop.specs.declared.boxed_subscriber.StepInput.TheVariants as input;

use crate::error::Result;
use crate::events::{Events, Request};
use crate::ops::EventOps;
use crate::poller::EventPoller;
use crate::subscribers::MutEventSubscriber;

/// What a [`StepSubscriber`] is given.
#[derive(Clone, Copy, PartialEq, Eq, Debug)]
pub enum StepInput {
    /// It was added to a registry.
    Init,
    /// An event was dispatched to it.
    Event(Events),
    /// The answer to the request that it returned last.
    Answer(Result<()>),
}

/// A subscriber that asks for one request at a time. Its one method names no poller, so it can be boxed. It is called with `Init`
/// or `Event`; each request that it returns is made, and its answer is the next input, until it returns `None`.
pub trait StepSubscriber: Drop {
    ghost use Rattle.std.specs.Prelude.{ℕ, Option};
    ghost use Rattle.event_loop.specs.declared.boxed_subscriber.StepInput.{StepInput};
    ghost use Rattle.event_loop.specs.declared.events.Request.{Request};

    /// Which request it may return on an input, or none, from the value before to the value after.
    ghost requests: { Self → StepInput → Option Request → Self → Type 0 };

    /// How many requests it may still return after an answer: so it comes to an end.
    ghost requests_left: { Self → ℕ };

    /// The next request that it wants.
    fn next(&mut self, input: StepInput) -> Option<Request>
        ensures stepped { requests self.old input result self.new }
        ensures fewer { LeavesFewer input result (requests_left self.old) (requests_left self.new) };
}

/// A [`StepSubscriber`] of any type, in a box that the caller makes: a manager of these holds several types. It can't be downcast:
/// a removed one comes back as a box of some type.
#[derive(Drop)]
pub struct BoxedSubscriber(pub Box<dyn StepSubscriber + Send>);

impl BoxedSubscriber {
    fn next(&mut self, input: StepInput) -> Option<Request>
        ensures stepped { (y : _) × HoldsNow self.old.0 self.new.0 y × (⟦<(dyn StepSubscriber + Send) as StepSubscriber>⟧ self.old.0.vtable).requests self.old.0.value input result y }
        ensures fewer { LeavesFewer input result ((⟦<(dyn StepSubscriber + Send) as StepSubscriber>⟧ self.old.0.vtable).requests_left self.old.0.value) ((⟦<(dyn StepSubscriber + Send) as StepSubscriber>⟧ self.new.0.vtable).requests_left self.new.0.value) }
    {
        self.0.next(input)
    }

    fn exchange<P: EventPoller>(&mut self, start: StepInput, ops: &mut EventOps<P>)
        ensures { (exchanges : Exchanges) × (calls : List PollerCall)
            × ((y : _) × HoldsNow self.old.0 self.new.0 y × Reaches (⟦<(dyn StepSubscriber + Send) as StepSubscriber>⟧ self.old.0.vtable).requests self.old.0.value start exchanges None y)
            × AreMadeThrough P.controls P.waits ops.old ops.new exchanges calls }
    {
        let mut wanted = self.next(start);
        while let Some(request) = wanted {
            let answer = ops.request(request);
            wanted = self.next(StepInput::Answer(answer));
        }
    }
}

impl MutEventSubscriber for BoxedSubscriber {
    ghost begins = { λ v exchanges w. (y : _) × HoldsNow v.0 w.0 y × Reaches (StepSubscriber-box v.0).requests v.0.value input.Init exchanges None y };

    ghost serves = { λ v event exchanges w. (y : _) × HoldsNow v.0 w.0 y × Reaches (StepSubscriber-box v.0).requests v.0.value (input.Event event) exchanges None y };

    fn process<P: EventPoller>(&mut self, events: Events, ops: &mut EventOps<P>) {
        self.exchange(StepInput::Event(events), ops)
    }

    fn init<P: EventPoller>(&mut self, ops: &mut EventOps<P>) {
        self.exchange(StepInput::Init, ops)
    }
}

//! A subscriber made of subscribers.

use event_manager::laws::exchanges_join;
use event_manager::{EventOps, EventPoller, Events, MutEventSubscriber};

/// Two subscribers as one: each asks for what it wants, and each is handed each event, the first of them first.
#[derive(Drop)]
pub struct Both<A, B> {
    pub first: A,
    pub second: B,
}

impl<A: MutEventSubscriber, B: MutEventSubscriber> MutEventSubscriber for Both<A, B> {
    ghost use Rattle.std.specs.Prelude.{◌≡◌, ◌++◌};
    ghost use Rattle.event_manager.specs.Exchange.{Exchanges};

    ghost begins = { λ v exchanges w. (firsts seconds : Exchanges) × (exchanges ≡ firsts ++ seconds) × A.begins v.first firsts w.first × B.begins v.second seconds w.second };

    ghost serves = { λ v event exchanges w. (firsts seconds : Exchanges) × (exchanges ≡ firsts ++ seconds) × A.serves v.first event firsts w.first × B.serves v.second event seconds w.second };

    fn process<P: EventPoller>(&mut self, events: Events, ops: &mut EventOps<P>) {
        exchanges_join::<P>();
        self.first.process(events, ops);
        self.second.process(events, ops);
    }

    fn init<P: EventPoller>(&mut self, ops: &mut EventOps<P>) {
        exchanges_join::<P>();
        self.first.init(ops);
        self.second.init(ops);
    }
}

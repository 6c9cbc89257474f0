//! A first program: a subscriber that counts how often its bell is heard, in a loop that is run twice.
#![tactic(auto)]

use anyhow::Result;
use event_loop::{
    EventLoop, EventOps, EventPoller, EventSet, Events, MutEventSubscriber, SubscriberOps,
};
use vmm_sys::epoll::Epoll;
use vmm_sys::eventfd::EventFd;

/// How often the bell was heard, and what its addition was answered.
#[derive(Drop)]
struct Doorman {
    bell: Events,
    asked: event_loop::Result<()>,
    heard: u64,
}

impl MutEventSubscriber for Doorman {
    ghost use Rattle.std.specs.Prelude.{◌≡◌, [], ◌∷◌};
    ghost use Rattle.event_loop.specs.CounterEvents.{next_count};
    ghost use Rattle.event_loop.specs.declared.events.Request.TheVariants.{Add};

    ghost begins = { λ v exchanges w. (exchanges ≡ (Add v.bell, w.asked) ∷ []) × (w ≡ record v { asked = w.asked }) };

    ghost serves = { λ v event exchanges w. (exchanges ≡ []) × (w ≡ record v { heard = next_count v.heard }) };

    fn process<P: EventPoller>(&mut self, _events: Events, _ops: &mut EventOps<P>) {
        self.heard = self.heard.saturating_add(1);
    }

    fn init<P: EventPoller>(&mut self, ops: &mut EventOps<P>) {
        self.asked = ops.add(self.bell);
    }
}

fn main(rt: HostRuntime) -> Result<()> {
    let epoll = Epoll::new(rt, rt.alloc())?;
    let ringing = EventFd::new(&epoll, 1, &rt)?;
    let bell = Events::new(&ringing, EventSet::IN);
    let mut event_loop = EventLoop::new(rt.alloc(), epoll)?;
    let id = event_loop.add_subscriber(Doorman {
        bell,
        asked: Ok(()),
        heard: 0,
    })?;
    event_loop.run()?;
    event_loop.run()?;
    let doorman = event_loop.remove_subscriber(id)?;
    doorman.asked?;
    Ok(println!(rt; "the bell was heard {} times", doorman.heard)?)
}

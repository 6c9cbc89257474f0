//! The program `actors`: a greeter and a tally, which are boxed subscribers of one loop. Names are sent to the greeter, which greets
//! each and hands it on to the tally, once that has room; the tally counts them and then tells itself to say so. Each run prints the
//! same; arguments and input are ignored.
#![tactic(auto)]

pub mod greeter;
pub mod tally;

use anyhow::Result;
use channels::{Sender, channel, sync_channel_with_room};
use event_loop::{
    BoxedSubscriber, EventLoop, EventPoller, EventSet, Events, MutEventSubscriber, StepSubscriber,
    SubscriberOps,
};
use greeter::Greeter;
use std::sync::Wait;
use std::time::Clock;
use tally::Tally;
use vmm_sys::epoll::Epoll;
use vmm_sys::eventfd::EventFd;

/// What the program sends: each list, then runs until nothing happens.
const ROUNDS: [[&str; 2]; 2] = [["Ada", "Grace"], ["Edsger", "Barbara"]];

/// How much the tally may be told before it has heard it.
const TALLY_ROOM: usize = 1;

/// How many waits a round has at most.
const MOST_WAITS: usize = 100;

/// Runs until a wait reports nothing, or after 100 waits; answers how many events there were.
fn run<S: MutEventSubscriber, P: EventPoller>(actors: &mut EventLoop<S, P>) -> Result<usize> {
    let mut events: usize = 0;
    for _wait in 0..MOST_WAITS {
        let count = actors.run_with_timeout(0)?;
        if count == 0 {
            break;
        }
        events = events.saturating_add(count);
    }
    Ok(events)
}

/// Sends the names of each round to the greeter, and prints how many events came of it.
fn play<S: MutEventSubscriber, P: EventPoller, R: Wait + Clock + Print + AllocGlobal>(
    actors: &mut EventLoop<S, P>,
    greeter: &Sender<String>,
    rt: &R,
) -> Result<()> {
    for names in ROUNDS {
        for name in names {
            let name = String::from_str(rt.alloc(), name)?;
            greeter.send(name, rt)?;
        }
        let events = run(actors)?;
        println!(rt; "{events} events")?;
    }
    Ok(())
}

fn main(rt: HostRuntime) -> Result<()> {
    let alloc = rt.alloc();
    let epoll = Epoll::new(rt, alloc)?;
    let (to_greeter, names) = channel(EventFd::new(&epoll, 0, &rt)?, alloc)?;
    let (counter, room) = (EventFd::new(&epoll, 0, &rt)?, EventFd::new(&epoll, 0, &rt)?);
    let has_room = Events::new(&room, EventSet::IN);
    let (to_tally, greeted) = sync_channel_with_room(counter, room, TALLY_ROOM, alloc, &rt)?;
    let tally = Tally::new(greeted, to_tally.try_clone(&rt)?, rt);
    let greeter = Greeter::new(names, to_tally, has_room, rt);
    let mut actors = EventLoop::new(alloc, epoll)?;
    let greeter: Box<dyn StepSubscriber + Send> = Box::new(alloc, greeter)?;
    let tally: Box<dyn StepSubscriber + Send> = Box::new(alloc, tally)?;
    actors.add_subscriber(BoxedSubscriber(greeter))?;
    actors.add_subscriber(BoxedSubscriber(tally))?;
    play(&mut actors, &to_greeter, &rt)
}

//! What a message of a channel costs, with the run in which its receiver is told of it and takes it.

use anyhow::{Result, ensure};
use channels::{Receiver, SendError, Sender, channel};
use event_manager::{
    EventLoop, EventOps, EventPoller, EventSet, Events, MutEventSubscriber, SubscriberId,
    SubscriberOps,
};
use measures::bench::{Bench, Measured, expect};
use measures::host::Host;
use measures::timing::Times;
use std::alloc::Global;
use std::sync::Wait;
use std::thread;
use std::time::Clock;
use vmm_sys::epoll::Epoll;
use vmm_sys::eventfd::EventFd;

/// How many messages a repeat sends in full: a multiple of each size of a batch.
const MESSAGES: u32 = 20480;

/// The sizes of batches, each with the name of its measure; none where another thread sends.
const BATCHES: [(Option<u32>, &str); 4] = [
    (Some(1), "a message, and the run that takes it"),
    (Some(16), "one of 16 messages, and the run for all"),
    (Some(256), "one of 256 messages, and the run for all"),
    (None, "a message from another thread"),
];

/// For how many milliseconds a loop waits for a message of another thread.
const PATIENCE: i32 = 10_000;

/// Takes the messages that wait, and counts them.
struct Taker<R> {
    messages: Receiver<u32>,
    batch: Vec<u32>,
    count: u64,
    rt: R,
}

// Not derived: then who owns one has a call to prove, and not a drop of all that is in it.
impl<R: Drop> Drop for Taker<R> {
    fn drop(self) {
        let Taker {
            messages: _,
            batch: _,
            count: _,
            rt: _,
        } = self;
    }
}

impl<R: Wait + Clock + Drop> MutEventSubscriber for Taker<R> {
    ghost use Rattle.event_manager.specs.Exchange.{AsksNothing};

    ghost begins = { λ v exchanges w. Unit {0} };

    ghost serves = { λ v event exchanges w. AsksNothing exchanges };

    fn process<P: EventPoller>(&mut self, _events: Events, _ops: &mut EventOps<P>) {
        let _ = self.messages.take(&mut self.batch, &self.rt);
        self.count = self.count.saturating_add(self.batch.len() as u64);
        self.batch.clear();
    }

    fn init<P: EventPoller>(&mut self, ops: &mut EventOps<P>) {
        let _ = ops.add(Events::new(&self.messages, EventSet::IN));
    }
}

/// A loop with a taker, whose id it is, and who sends to that.
#[derive(Drop)]
struct Taking<R> {
    event_loop: EventLoop<Taker<R>, Epoll<R>>,
    id: SubscriberId,
    sender: Sender<u32>,
}

/// One over the in-process table.
fn begin<R: Host>(rt: &R, alloc: Global) -> Result<Taking<R>> {
    let epoll = Epoll::new(*rt, alloc)?;
    let (sender, messages) = channel(EventFd::new(&epoll, 0, rt)?, alloc)?;
    let mut event_loop = EventLoop::new(alloc, epoll)?;
    let id = event_loop.add_subscriber(Taker {
        messages,
        batch: Vec::new(alloc),
        count: 0,
        rt: *rt,
    })?;
    Ok(Taking {
        event_loop,
        id,
        sender,
    })
}

/// Sends `count` messages.
fn send<R: Wait + Clock>(sender: &Sender<u32>, count: u32, rt: &R) -> Result<(), SendError<u32>> {
    for message in 0..count {
        sender.send(message, rt)?;
    }
    Ok(())
}

/// Sends batches of `size` messages, with a run behind each.
fn send_and_run<R: Host>(taking: &mut Taking<R>, size: u32, rounds: u32, rt: &R) -> Result<()> {
    for _round in 0..rounds {
        send(&taking.sender, size, rt)?;
        expect(taking.event_loop.run()? as u64, 1)?;
    }
    Ok(())
}

/// Runs the loop until its taker has counted `count` messages. Refused where none comes for ten seconds.
fn run_until<R: Host>(
    event_loop: &mut EventLoop<Taker<R>, Epoll<R>>,
    id: SubscriberId,
    count: u64,
    rt: &R,
) -> Result<()> {
    for _run in rt.forever() {
        if event_loop.subscriber(id)?.count >= count {
            break;
        }
        ensure!(
            event_loop.run_with_timeout(PATIENCE)? > 0,
            "no message comes"
        );
    }
    Ok(())
}

/// Sends `messages` messages from another thread, while the loop takes them on this one.
fn send_beside<R: Host>(taking: &mut Taking<R>, messages: u32, rt: &R) -> Result<()> {
    let Taking {
        event_loop,
        id,
        sender,
    } = taking;
    let before = event_loop.subscriber(*id)?.count;
    let count = before.saturating_add(u64::from(messages));
    let (sent, taken) = thread::join(
        rt,
        || send(sender, messages, rt),
        || run_until(event_loop, *id, count, rt),
    );
    sent?;
    taken
}

/// Measures a message of batches of this size, or one of another thread.
fn measure_taking<R: Host>(
    bench: &Bench<R>,
    taking: &mut Taking<R>,
    size: Option<u32>,
) -> Result<Measured> {
    let each = size.unwrap_or(1);
    let rounds = bench.rounds(MESSAGES / each.max(1));
    let times = Times::of(
        || match size {
            Some(size) => send_and_run(taking, size, rounds, &bench.rt),
            None => send_beside(taking, rounds, &bench.rt),
        },
        &bench.rt,
    )?;
    let count = taking.event_loop.subscriber(taking.id)?.count;
    Measured::of(times, u64::from(rounds.saturating_mul(each)), count)
}

/// Measures messages.
pub fn measure_messages<R: Host>(bench: &Bench<R>) -> Result<()> {
    for (size, name) in BATCHES {
        let mut taking = begin(&bench.rt, bench.alloc)?;
        bench.print(name, measure_taking(bench, &mut taking, size)?)?;
    }
    Ok(())
}

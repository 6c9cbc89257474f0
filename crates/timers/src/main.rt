//! The program `timers`: timers as descriptors in an event manager, whose loop is run tick by tick until a job stops it, and
//! then made again from the record of its poller.
//!
//! A line is printed for each event of a timer. The clock is the program's own, so each run prints the same; arguments and
//! input are ignored.
#![tactic(auto)]

mod dispatcher;
mod stop;

use anyhow::ensure;
use dispatcher::{Delivery, Dispatcher, Plan, Then};
use event_manager::{
    ActionOn, Error, EventManager, EventPoller, Ledgers, NamedCounter, Result, SubscriberId,
    SubscriberOps, WithLedgers, with_ledgers,
};
use poller_records::record::RecordEntry;
use poller_records::recording_poller::RecordingPoller;
use poller_records::replay_poller::ReplayPoller;
use std::alloc::Global;
use std::sync::Wait;
use std::sync::atomic::{AtomicU64, Ordering};
use std::time::Clock;
use stop::Stop;
use timerfd::{TickClock, TimedPoller};
use vmm_sys::epoll::Epoll;
use vmm_sys::eventfd::EventFd;

/// The timers, by their numbers from 0.
const TIMERS: [Plan; 5] = [
    ("heartbeat", 2, Then::Repeat),
    ("timeout", 3, Then::Cancel(3)),
    ("report", 5, Then::Repeat),
    ("reminder", 4, Then::Rest),
    ("backoff", 1, Then::BackOff),
];

/// What the clock shows in one run of the loop after the other.
const TICKS: [u64; 8] = [1, 2, 3, 4, 5, 6, 11, 12];

/// The run in which the dispatcher is stopped, from 0.
const STOPPED_IN: usize = 6;

/// How many entries find room in the record.
const MOST_ENTRIES: usize = 64;

/// A dispatcher that is ready to run: all that it needs but the manager, which is made of a counter and ledgers.
struct Program<'a, R, P> {
    poller: P,
    dispatcher: Dispatcher<R>,
    clock: R,
    ticks: &'a AtomicU64,
    shown: [u64; 8],
    alloc: Global,
}

impl<R: Wait + Clock + Drop, P: EventPoller + Drop> WithLedgers for Program<'_, R, P> {
    type Output = Result<(Vec<Delivery>, P)>;

    /// Runs the dispatcher in a manager, until it is stopped. Answers what was delivered, and the poller.
    fn run<N: NamedCounter + Send + Sync>(
        self,
        counter: N,
        ledgers: Ledgers<N>,
    ) -> Result<(Vec<Delivery>, P)> {
        let Program {
            poller,
            dispatcher,
            clock,
            ticks,
            shown,
            alloc,
        } = self;
        let mut manager = EventManager::new(alloc, poller, counter, ledgers)?;
        let ran = turn(&mut manager, dispatcher, ticks, &shown, &clock);
        let (_, mut subscribers, poller) = manager.into_parts(&clock);
        let dispatcher = subscribers.remove(ran?).ok_or(Error::InvalidId)?;
        Ok((dispatcher.into_deliveries(), poller))
    }
}

/// Takes the dispatcher in, and runs the loop once at each tick that is to be shown, until it is stopped. Answers its id.
fn turn<R: Wait + Clock + Drop, N: NamedCounter, P: EventPoller>(
    manager: &mut EventManager<Dispatcher<R>, ActionOn<Stop>, N, P>,
    dispatcher: Dispatcher<R>,
    ticks: &AtomicU64,
    shown: &[u64],
    clock: &R,
) -> Result<SubscriberId> {
    let endpoint = manager.remote_endpoint()?;
    let dispatcher = manager.add_subscriber(dispatcher)?;
    for (run, tick) in shown.iter().enumerate() {
        ticks.store(*tick, Ordering::SeqCst);
        if run == STOPPED_IN {
            let stop = ActionOn {
                subscriber: dispatcher,
                action: Stop,
            };
            let _ticket = endpoint.fire(stop, clock)?;
        }
        manager.run_with_timeout(0, clock)?;
        if manager.subscriber(dispatcher)?.is_stopped()? {
            break;
        }
    }
    Ok(dispatcher)
}

/// What a run is made of, over a table and timers of its own: poller, endpoint and dispatcher.
type Parts<R> = (TimedPoller<Epoll<R>, R>, EventFd, Dispatcher<R>);

fn open<R: Wait + Clock + Copy + Send + Drop>(clock: &R, alloc: Global) -> Result<Parts<R>> {
    let epoll = Epoll::new(*clock, alloc).map_err(Error::Epoll)?;
    let endpoint = EventFd::new(&epoll, 0, clock).map_err(Error::EventFd)?;
    let alarm = EventFd::new(&epoll, 0, clock).map_err(Error::EventFd)?;
    let timed = TimedPoller::new(epoll, alarm, *clock, alloc).map_err(Error::Epoll)?;
    let dispatcher = Dispatcher::new(&timed, &TIMERS, *clock, alloc)?;
    Ok((timed, endpoint, dispatcher))
}

/// Runs a dispatcher. Answers what was delivered, and the record of its poller's calls.
fn record<R: Wait + Clock + Copy + Send + Drop>(
    ticks: &AtomicU64,
    clock: &R,
    alloc: Global,
) -> Result<(Vec<Delivery>, Vec<RecordEntry>)> {
    let (timed, endpoint, dispatcher) = open(clock, alloc)?;
    let poller = RecordingPoller::new(timed, alloc, MOST_ENTRIES).map_err(Error::Epoll)?;
    let program = Program {
        poller,
        dispatcher,
        clock: *clock,
        ticks,
        shown: TICKS,
        alloc,
    };
    let (deliveries, poller) = with_ledgers(endpoint, program)?;
    Ok((deliveries, poller.into_parts().1))
}

/// Runs a dispatcher over the record, while the clock stands still. Answers what was delivered.
fn replay<R: Wait + Clock + Copy + Send + Drop>(
    record: Vec<RecordEntry>,
    ticks: &AtomicU64,
    clock: &R,
    alloc: Global,
) -> Result<Vec<Delivery>> {
    let (_, endpoint, dispatcher) = open(clock, alloc)?;
    let program = Program {
        poller: ReplayPoller::new(record),
        dispatcher,
        clock: *clock,
        ticks,
        shown: [0; 8],
        alloc,
    };
    let (deliveries, _) = with_ledgers(endpoint, program)?;
    Ok(deliveries)
}

fn main(rt: HostRuntime) -> anyhow::Result<()> {
    let ticks = AtomicU64::new(0);
    let clock = TickClock::new(&ticks, rt);
    let (deliveries, record) = record(&ticks, &clock, rt.alloc())?;
    for delivery in &deliveries {
        println!(rt; "{delivery}")?;
    }
    ticks.store(0, Ordering::SeqCst);
    let replayed = replay(record, &ticks, &clock, rt.alloc())?;
    let name = |delivery: &Delivery| delivery.name;
    let is_same = deliveries.iter().map(name).eq(replayed.iter().map(name));
    ensure!(is_same, "the replay delivered other events");
    let count = replayed.len();
    Ok(println!(rt; "replayed: the same {count} events, without a clock")?)
}

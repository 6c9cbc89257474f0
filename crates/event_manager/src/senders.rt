//! A loop beside threads that send jobs to it.

ghost use Rattle.std.specs.Prelude.{◌≡◌, IfOk, IfSome};
ghost use Rattle.event_manager.specs.Reached.{HasEnded};

use crate::endpoint::RemoteEndpoint;
use crate::endpoint::closed::Closed;
use crate::jobs::Job;
use crate::loops::{ThreadLoop, with_loops};
use crate::manager::DEFAULT_CAPACITY;
use crate::named_counter::{Named, NamedCounter};
use crate::tracked::TrackedManager;
use event_loop::{Error, EventPoller, MutEventSubscriber, Result, Subscribers};
use job_tickets::ledgers::Ledgers;
use job_tickets::naming::Naming;
use std::alloc::Global;
use std::marker::{Brand, PhantomData};
use std::sync::Wait;
use std::sync::atomic::{AtomicUsize, Ordering};
use std::sync::ledger::Blank;
use std::thread::Threads;
use std::time::Clock;
use vmm_sys::counter::Counter;

/// Sends jobs of type `J` from a thread of its own, and returns a `T` in the end.
pub trait JobSender<S: MutEventSubscriber, J: Job<S>, T, R: Wait + Clock> {
    /// Sends its jobs through an endpoint of the loop beside it.
    fn send<N: NamedCounter>(self, endpoint: &RemoteEndpoint<S, J, N>, rt: &R) -> T;
}

/// The loop's side of [`with_senders`]: its subscribers and its senders, of type `Q`, and how long it runs.
pub trait LoopWithSenders<S: MutEventSubscriber, J: Job<S>, Q, R: Wait + Clock> {
    /// The most events of a batch; by default as many as [`EventManager::new`](crate::EventManager::new) sets.
    fn capacity(&self) -> usize {
        DEFAULT_CAPACITY
    }

    /// Adds subscribers, and returns the senders: each gets a thread after this has returned.
    fn begin<N: NamedCounter, P: EventPoller>(
        &mut self,
        rt: &R,
        alloc: Global,
        manager: &mut TrackedManager<S, J, N, P>,
    ) -> Result<Vec<Q>>;

    /// Runs the loop beside the senders, on the thread that called `with_senders`; by default [`Senders::run_until_ended`].
    fn run<N: NamedCounter, P: EventPoller>(
        &mut self,
        rt: &R,
        manager: &mut TrackedManager<S, J, N, P>,
        senders: &Senders,
    ) -> Result<()> {
        senders.run_until_ended(manager, rt)
    }
}

/// The senders beside a loop, as the loop sees them.
#[derive(Drop)]
pub struct Senders {
    at_work: AtomicUsize,
}

impl Senders {
    /// Whether all senders have ended. The last one wakes the loop.
    pub fn have_ended(&self) -> bool {
        self.at_work.load(Ordering::SeqCst) == 0
    }

    /// Runs the manager until all have ended and no job waits (a full batch may leave the endpoint out), or until a run is refused.
    pub fn run_until_ended<S, J, N, P, R>(
        &self,
        manager: &mut TrackedManager<S, J, N, P>,
        rt: &R,
    ) -> Result<()>
    where
        S: MutEventSubscriber,
        J: Job<S>,
        N: NamedCounter,
        P: EventPoller,
        R: Wait + Clock,
    {
        for _run in rt.forever() {
            if self.have_ended() {
                break;
            }
            manager.run(rt)?;
        }
        // Runs what was sent during the last run.
        for _run in rt.forever() {
            manager.run_with_timeout(0, rt)?;
            if !manager.has_waiting_jobs(rt) {
                break;
            }
        }
        Ok(())
    }

    fn end_one<S: MutEventSubscriber, J: Job<S>, N: NamedCounter, R: Wait + Clock>(
        &self,
        endpoint: &RemoteEndpoint<S, J, N>,
        rt: &R,
    ) {
        if self.at_work.fetch_sub(1, Ordering::SeqCst) == 1 {
            let _ = endpoint.kick(rt);
        }
    }
}

/// The result of a loop and its senders.
#[derive(Drop)]
pub struct Ended<S, T, P> {
    /// What the loop's run returned.
    pub ran: Result<()>,
    /// What each sender returned, in their order.
    pub sent: Vec<T>,
    /// How many tickets were issued.
    pub issued: u64,
    /// How many jobs the manager took and ran.
    pub taken: u64,
    /// The subscribers that it held in the end.
    pub subscribers: Subscribers<S>,
    /// The poller, with what was added to it.
    pub poller: P,
}

#[derive(Drop)]
struct LoopEnded<S, N: Naming, P> {
    ran: Result<()>,
    closed: Closed<N>,
    subscribers: Subscribers<S>,
    poller: P,
}

#[derive(Drop)]
struct SenderLoop<'a, S: MutEventSubscriber, J: Job<S>, N: NamedCounter, Q, T> {
    sender: Q,
    endpoint: &'a RemoteEndpoint<S, J, N>,
    senders: &'a Senders,
    gives: PhantomData<T>,
}

impl<'a, S, J, N, Q, T, R> ThreadLoop<R> for SenderLoop<'a, S, J, N, Q, T>
where
    S: MutEventSubscriber,
    J: Job<S>,
    N: NamedCounter,
    Q: JobSender<S, J, T, R>,
    R: Wait + Clock,
{
    type Output = T;

    fn run(self, rt: &R) -> T {
        let SenderLoop {
            sender,
            endpoint,
            senders,
            ..
        } = self;
        let sent = sender.send::<N>(endpoint, rt);
        senders.end_one(endpoint, rt);
        sent
    }
}

#[derive(Drop)]
struct ManagerLoop<'a, S: MutEventSubscriber, J: Job<S>, N: NamedCounter, P, B, Q> {
    body: &'a mut B,
    manager: &'a mut Option<TrackedManager<S, J, N, P>>,
    senders: &'a Senders,
    starts: PhantomData<Q>,
}

impl<'a, S, J, N, P, B, Q, R> ThreadLoop<R> for ManagerLoop<'a, S, J, N, P, B, Q>
where
    S: MutEventSubscriber + Drop,
    J: Job<S>,
    N: NamedCounter,
    P: EventPoller,
    B: LoopWithSenders<S, J, Q, R>,
    R: Wait + Clock,
{
    type Output = Option<LoopEnded<S, N, P>>;

    ghost use Rattle.std.specs.Prelude.{IfSome};
    ghost use Rattle.event_manager.specs.Reached.{HasEnded};

    ghost gives = { λ own output. IfSome output (λ ended. HasEnded S.begins S.serves J.may ended.subscribers ended.closed.taken) };

    fn run(self, rt: &R) -> Option<LoopEnded<S, N, P>> {
        let ManagerLoop {
            body,
            manager,
            senders,
            ..
        } = self;
        let mut manager = manager.take()?;
        let ran = body.run(rt, &mut manager, senders);
        let (closed, subscribers, poller) = manager.into_parts(rt);
        Some(LoopEnded {
            ran,
            closed,
            subscribers,
            poller,
        })
    }
}

fn run_beside<'a, S, J, N, P, B, Q, T, R>(
    rt: &R,
    alloc: Global,
    own: ManagerLoop<'a, S, J, N, P, B, Q>,
    senders: Vec<Q>,
    endpoint: &'a RemoteEndpoint<S, J, N>,
) -> Result<(Option<LoopEnded<S, N, P>>, Vec<T>)>
where
    S: MutEventSubscriber + Send + Drop,
    J: Job<S> + Send,
    J::Reply: Send,
    N: NamedCounter + Send + Sync,
    P: EventPoller + Drop,
    B: LoopWithSenders<S, J, Q, R>,
    Q: JobSender<S, J, T, R> + Send + Drop,
    T: Send + Drop,
    R: Threads + Wait + Clock + Sync,
    ensures { IfOk result (λ gave. IfSome gave.0 (λ ended. HasEnded S.begins S.serves J.may ended.subscribers ended.closed.taken)) }
{
    let at_work = own.senders;
    let mut others = Vec::new(alloc);
    for sender in senders {
        others.push(SenderLoop {
            sender,
            endpoint,
            senders: at_work,
            gives: PhantomData::<T>,
        })?;
    }
    with_loops(rt, alloc, own, others)
}

fn run_named<S, J, N, P, C, B, Q, T, R>(
    rt: &R,
    alloc: Global,
    poller: P,
    counter: C,
    body: &mut B,
    tickets: Blank,
    taken: Blank,
) -> Result<Ended<S, T, P>>
where
    S: MutEventSubscriber + Send + Drop,
    J: Job<S> + Send,
    J::Reply: Send,
    N: Naming + Send + Sync,
    P: EventPoller + Drop,
    C: Counter + Send + Sync + Drop,
    B: LoopWithSenders<S, J, Q, R>,
    Q: JobSender<S, J, T, R> + Send + Drop,
    T: Send + Drop,
    R: Threads + Wait + Clock + Sync,
    requires tickets { (tickets.name ≡ N.tickets) × (tickets.parts ≡ 9223372036854775808) }
    requires taken { (taken.name ≡ N.taken) × (taken.parts ≡ 1) }
    ensures { IfOk result (λ ended. HasEnded S.begins S.serves J.may ended.subscribers ended.taken) }
{
    let ledgers = Ledgers::<Named<N, C>>::new(tickets, taken);
    let capacity = body.capacity();
    let counter = Named::new(counter);
    let made = TrackedManager::<S, J, Named<N, C>, P>::new_with_capacity(
        alloc, poller, counter, capacity, ledgers,
    );
    let mut manager = made?;
    let senders = body.begin(rt, alloc, &mut manager)?;
    let endpoint = manager.remote_endpoint()?;
    let at_work = Senders {
        at_work: AtomicUsize::new(senders.len()),
    };
    let mut held = Some(manager);
    let own = ManagerLoop {
        body,
        manager: &mut held,
        senders: &at_work,
        starts: PhantomData::<Q>,
    };
    let ended = run_beside::<S, J, Named<N, C>, P, B, Q, T, R>(rt, alloc, own, senders, &endpoint);
    if let Some(manager) = held {
        manager.close(rt);
    }
    let (ended, sent) = ended?;
    let Some(ended) = ended else {
        return Err(Error::OutOfMemory);
    };
    let LoopEnded {
        ran,
        closed,
        subscribers,
        poller,
    } = ended;
    Ok(Ended {
        ran,
        sent,
        issued: closed.issued(),
        taken: closed.taken(),
        subscribers,
        poller,
    })
}

/// Makes a manager over the poller, woken by the counter, calls `begin`, and runs the loop on this thread, beside a thread for each
/// sender, as [`with_loops`] does. Whatever ends the loop, the manager is then closed, so no sender waits for a reply any longer.
/// Once all senders have ended, it returns what they and the loop returned, and the poller.
///
/// Refused as the making of the manager, as `begin` and as `remote_endpoint`, and no sender begins; with `OutOfMemory` also if
/// there is no room for what they return or no thread for one: then neither loop nor sender begins, and the manager is closed. Once
/// the manager was made, its endpoint stays added to the poller and is seen by its copies: a close asks for no Delete. The returned
/// subscribers come from a new manager by calls and jobs, so what `init` gives, and `process` and jobs keep, holds.
pub fn with_senders<S, J, P, C, B, Q, T, R>(
    rt: &R,
    alloc: Global,
    poller: P,
    counter: C,
    body: &mut B,
) -> Result<Ended<S, T, P>>
where
    S: MutEventSubscriber + Send + Drop,
    J: Job<S> + Send,
    J::Reply: Send,
    P: EventPoller + Drop,
    C: Counter + Send + Sync + Drop,
    B: LoopWithSenders<S, J, Q, R>,
    Q: JobSender<S, J, T, R> + Send + Drop,
    T: Send + Drop,
    R: Threads + Wait + Clock + Sync,
    ensures { IfOk result (λ ended. HasEnded S.begins S.serves J.may ended.subscribers ended.taken) }
{
    let (tickets, taken) = (Blank::new(9223372036854775808), Blank::new(1));
    run_named::<S, J, Brand, P, C, B, Q, T, R>(rt, alloc, poller, counter, body, tickets, taken)
}

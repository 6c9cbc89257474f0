//! The loop that accepts connections, hands them to the workers, and hears what they have done.

use crate::fault::Fault;
use crate::worker::{Connection, Report};
use channels::{Receiver, Sender, channel};
use closing::Closing;
use event_manager::{Either, EventLoop, EventPoller, SubscriberOps, ThreadLoop};
use inboxes::Inbox;
use std::alloc::Global;
use std::sync::Wait;
use std::time::Clock;
use vmm_sys::epoll::Epoll;
use vmm_sys::eventfd::EventFd;

/// Who asks for a connection: what it will say.
pub type Client = [&'static str; 2];

/// The way to a worker: its poller, by which a descriptor is opened that it can watch, and where it is sent connections.
#[derive(Drop)]
pub struct Lane<R: Wait + Clock> {
    /// The worker's poller.
    pub epoll: Epoll<R>,
    /// Where it is sent connections, until this is dropped.
    pub connections: Closing<Sender<Connection>, R>,
}

/// Who is in the acceptor's loop: where clients come, and where the workers report.
type Peer<R> = Either<Inbox<Client, R>, Inbox<Report, R>>;

/// Gives each client that comes a connection to the worker whose turn it is, and gathers what the workers report.
#[derive(Drop)]
pub struct Acceptor<P, R: Wait + Clock> {
    /// Its poller.
    pub poller: P,
    /// By which clients come.
    pub clients: Receiver<Client>,
    /// By which the workers report.
    pub reports: Receiver<Report>,
    /// The ways to the workers, the one whose turn it is first.
    pub lanes: Vec<Lane<R>>,
    /// Where its memory comes from.
    pub alloc: Global,
}

/// The client says what it has to say.
fn say<R: Wait + Clock>(
    client: Client,
    sender: &Sender<String>,
    alloc: Global,
    rt: &R,
) -> Result<(), Fault> {
    for word in client {
        let word = String::from_str(alloc, word)?;
        sender.send(word, rt)?;
    }
    Ok(())
}

impl<R: Wait + Clock + Copy + Drop> Lane<R> {
    /// Makes a connection, in whose place a channel of the worker's table stands, and sends the worker its end. The client
    /// says what it has to say, and closes whatever came of that: the worker waits for it.
    fn connect(&self, client: Client, alloc: Global, rt: &R) -> Result<(), Fault> {
        let (sender, receiver) = channel(EventFd::new(&self.epoll, 0, rt)?, alloc)?;
        let sender = Closing::new(sender, *rt);
        self.connections.end.send(receiver, rt)?;
        say(client, &sender.end, alloc, rt)
    }
}

/// Connects each client to the worker whose turn it is.
fn connect_all<R: Wait + Clock + Copy + Drop>(
    clients: Vec<Client>,
    lanes: &mut Vec<Lane<R>>,
    alloc: Global,
    rt: &R,
) -> Result<(), Fault> {
    for client in clients {
        if let Some(lane) = lanes.first() {
            lane.connect(client, alloc, rt)?;
            lanes.rotate_left(1);
        }
    }
    Ok(())
}

/// Gathers the reports, in the order in which they come, until all workers have closed.
fn gather<R: Wait + Clock + Copy + Drop, P: EventPoller + Drop>(
    mut peers: EventLoop<Peer<R>, P>,
    clients: Inbox<Client, R>,
    reports: Inbox<Report, R>,
    mut lanes: Vec<Lane<R>>,
    alloc: Global,
    rt: &R,
) -> Result<Vec<Report>, Fault> {
    let clients = peers.add_subscriber(Either::First(clients))?;
    let reports = peers.add_subscriber(Either::Second(reports))?;
    let mut all = Vec::new(alloc);
    for _run in rt.forever() {
        // Before the wait, since one whose request was refused has no event that would end it.
        if let Either::First(inbox) = peers.subscriber_mut(clients)? {
            connect_all(inbox.take_arrived()?, &mut lanes, alloc, rt)?;
            if inbox.is_over() {
                lanes.clear();
            }
        }
        if let Either::Second(inbox) = peers.subscriber_mut(reports)? {
            all.append(&mut inbox.take_arrived()?)?;
            if inbox.is_over() {
                break;
            }
        }
        peers.run()?;
    }
    Ok(all)
}

impl<P: EventPoller + Drop, R: Wait + Clock + Copy + Drop> ThreadLoop<R> for Acceptor<P, R> {
    type Output = Result<Vec<Report>, Fault>;

    fn run(self, rt: &R) -> Result<Vec<Report>, Fault> {
        let Acceptor {
            poller,
            clients,
            reports,
            lanes,
            alloc,
        } = self;
        let clients = Inbox::new(clients, alloc, *rt);
        let reports = Inbox::new(reports, alloc, *rt);
        let peers = EventLoop::new(alloc, poller)?;
        gather(peers, clients, reports, lanes, alloc, rt)
    }
}

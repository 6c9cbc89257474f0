//! A loop that serves connections.

use crate::fault::Fault;
use channels::{Receiver, Sender};
use closing::Closing;
use event_manager::{
    Either, EventLoop, EventPoller, Result, SubscriberId, SubscriberOps, ThreadLoop,
};
use inboxes::Inbox;
use std::alloc::Global;
use std::sync::Wait;
use std::time::Clock;

/// What a worker has done.
#[derive(Clone, Copy, Drop)]
pub struct Report {
    /// Its number.
    pub worker: usize,
    /// How many connections it has served.
    pub connections: u64,
    /// How many bytes they had.
    pub bytes: usize,
}

/// The server's end of a connection, by which its words come.
pub type Connection = Receiver<String>;

/// Who is in a worker's loop: where it is sent connections, and those that it serves.
type Peer<R> = Either<Inbox<Connection, R>, Inbox<String, R>>;

/// Serves the connections that it is sent, until no more come and all are over. Then it reports what it has done.
#[derive(Drop)]
pub struct Worker<P> {
    /// Its number.
    pub number: usize,
    /// Its poller.
    pub poller: P,
    /// By which connections come.
    pub connections: Receiver<Connection>,
    /// Where it reports.
    pub reports: Sender<Report>,
    /// Where its memory comes from.
    pub alloc: Global,
}

/// Those who came join. Whether no more will come.
fn let_join<R: Wait + Clock + Copy + Drop, P: EventPoller>(
    peers: &mut EventLoop<Peer<R>, P>,
    to_come: SubscriberId,
    members: &mut Vec<SubscriberId>,
    rt: &R,
) -> Result<bool> {
    let Either::First(inbox) = peers.subscriber_mut(to_come)? else {
        return Ok(true);
    };
    let (arrived, all_came) = (inbox.take_arrived()?, inbox.is_over());
    for connection in arrived {
        let inbox = Inbox::new(connection, *members.allocator(), *rt);
        members.push(peers.add_subscriber(Either::Second(inbox))?)?;
    }
    Ok(all_came)
}

/// What a member was sent is counted, and a member that is over leaves.
fn let_leave<R: Wait + Clock + Drop, P: EventPoller>(
    peers: &mut EventLoop<Peer<R>, P>,
    member: SubscriberId,
    report: &mut Report,
) -> Result<()> {
    let Either::Second(inbox) = peers.subscriber_mut(member)? else {
        return Ok(());
    };
    for word in inbox.take_arrived()? {
        report.bytes = report.bytes.saturating_add(word.len());
    }
    if inbox.is_over() {
        report.connections = report.connections.saturating_add(1);
        let _left = peers.remove_subscriber(member)?;
    }
    Ok(())
}

/// Serves what comes until no more does and all are over, and answers what was done.
fn serve<R: Wait + Clock + Copy + Drop, P: EventPoller + Drop>(
    number: usize,
    poller: P,
    connections: Receiver<Connection>,
    alloc: Global,
    rt: &R,
) -> Result<Report> {
    let mut peers = EventLoop::new(alloc, poller)?;
    let to_come = peers.add_subscriber(Either::First(Inbox::new(connections, alloc, *rt)))?;
    let mut members = Vec::new(alloc);
    let mut report = Report {
        worker: number,
        connections: 0,
        bytes: 0,
    };
    for _run in rt.forever() {
        // Before the wait, since one whose request was refused has no event that would end it.
        let all_came = let_join(&mut peers, to_come, &mut members, rt)?;
        for member in &members {
            let_leave(&mut peers, *member, &mut report)?;
        }
        members.retain(|member| peers.subscriber(*member).is_ok());
        if all_came && members.is_empty() {
            break;
        }
        peers.run()?;
    }
    Ok(report)
}

impl<P: EventPoller + Drop, R: Wait + Clock + Copy + Drop> ThreadLoop<R> for Worker<P> {
    type Output = std::result::Result<(), Fault>;

    fn run(self, rt: &R) -> std::result::Result<(), Fault> {
        let Worker {
            number,
            poller,
            connections,
            reports,
            alloc,
        } = self;
        let reports = Closing::new(reports, *rt);
        let report = serve(number, poller, connections, alloc, rt)?;
        reports.end.send(report, rt)?;
        Ok(())
    }
}

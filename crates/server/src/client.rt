//! The client, on a thread of its own.

use crate::acceptor::{Ask, Look, Peer, Statistics};
use crate::connection::IDLE;
use crate::fault::Fault;
use event_manager::{EventSet, JobSender, NamedCounter, RemoteEndpoint, SubscriberId};
use std::sync::Wait;
use std::sync::atomic::{AtomicU64, Ordering};
use std::time::Clock;
use vmm_sys::eventfd::EventFd;
use vmm_sys::line::Line;

/// Two thirds of the time that a connection may be idle, in milliseconds; twice as much is more.
const MOST_OF_IDLE: u64 = IDLE / 3 * 2;

/// What the client uses.
#[derive(Drop)]
pub struct Client<'a> {
    /// The acceptor's listener.
    pub listener: EventFd,
    /// The other end of the connection that is accepted first.
    pub first: Line,
    /// The other end of the connection that is accepted next.
    pub second: Line,
    /// The id of the acceptor.
    pub acceptor: SubscriberId,
    /// The clock of the connections.
    pub ticks: &'a AtomicU64,
}

impl Client<'_> {
    /// Asks for the statistics once `passed` milliseconds more have passed. A loop that sleeps isn't told of them: it looks at the
    /// clock once the job has woken it, and what is due by then is served in the batch of the next job, or before.
    fn ask_after<C: Wait + Clock + Drop, N: NamedCounter, R: Wait + Clock>(
        &self,
        passed: u64,
        endpoint: &RemoteEndpoint<Peer<C>, Look, N>,
        rt: &R,
    ) -> Result<Statistics, Fault> {
        self.ticks.fetch_add(passed, Ordering::SeqCst);
        let look = Look {
            subscriber: self.acceptor,
            action: Ask::Read,
        };
        Ok(endpoint.call_blocking(look, rt)???)
    }

    /// Prints the statistics. What was done before the first call is served in the batch of its job, or before; who joins or leaves
    /// by that does so after that batch, and so before the job of the second call.
    fn print<C: Wait + Clock + Drop, N: NamedCounter, R: Wait + Clock + Print>(
        &self,
        done: &str,
        endpoint: &RemoteEndpoint<Peer<C>, Look, N>,
        rt: &R,
    ) -> Result<(), Fault> {
        let _ = self.ask_after(0, endpoint, rt)?;
        let Statistics {
            joined,
            left,
            bytes,
        } = self.ask_after(0, endpoint, rt)?;
        Ok(println!(rt; "{done}: {joined} joined, {left} left, {bytes} bytes")?)
    }
}

impl<C: Wait + Clock + Drop, R: Wait + Clock + Print> JobSender<Peer<C>, Look, Result<(), Fault>, R>
    for Client<'_> {
    fn send<N: NamedCounter>(
        self,
        endpoint: &RemoteEndpoint<Peer<C>, Look, N>,
        rt: &R,
    ) -> Result<(), Fault> {
        self.listener.write(1, rt)?;
        self.print("the first connects", endpoint, rt)?;
        let _ = self.ask_after(MOST_OF_IDLE, endpoint, rt)?;
        self.first.set(EventSet::IN, rt)?;
        let _ = self.ask_after(0, endpoint, rt)?;
        let _ = self.ask_after(MOST_OF_IDLE, endpoint, rt)?;
        self.print("the first sends", endpoint, rt)?;
        let _ = self.ask_after(MOST_OF_IDLE, endpoint, rt)?;
        self.print("the first is idle", endpoint, rt)?;
        self.listener.write(1, rt)?;
        self.print("the second connects", endpoint, rt)?;
        self.second.set(EventSet::IN, rt)?;
        self.print("the second sends", endpoint, rt)?;
        self.second.set(EventSet::HANG_UP, rt)?;
        self.print("the second hangs up", endpoint, rt)
    }
}

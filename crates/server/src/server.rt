//! The loop: it lets accepted connections join, and those leave that are over.

use crate::acceptor::{Acceptor, Ask, Look, Peer};
use crate::client::Client;
use crate::connection::Connection;
use crate::fault::Fault;
use channels::{Receiver, Sender, channel};
use event_manager::{
    Either, Error, EventPoller, LoopWithSenders, NamedCounter, Result, Senders, SubscriberId,
    TrackedManager,
};
use std::alloc::Global;
use std::mem;
use std::sync::Wait;
use std::sync::atomic::AtomicU64;
use std::time::Clock;
use timerfd::{TimedPoller, TimerFd};
use vmm_sys::epoll::Epoll;
use vmm_sys::eventfd::EventFd;
use vmm_sys::line::Line;

/// A server of two connections, and its client.
#[derive(Drop)]
pub struct Server<'a, C> {
    listener: EventFd,
    // The client's ends of the connections.
    first: Line,
    second: Line,
    ticks: &'a AtomicU64,
    clock: C,
    // The connections before they are accepted, the last first.
    coming: Vec<Connection<C>>,
    acceptor: Option<SubscriberId>,
    members: Vec<SubscriberId>,
    // The accepted connections, and the end by which the acceptor sends them.
    accepted: Receiver<Connection<C>>,
    to_loop: Sender<Connection<C>>,
}

impl<'a, C: Wait + Clock + Copy + Send + Drop> Server<'a, C> {
    /// A server without subscribers, whose clock shows these ticks.
    pub fn new(
        ticks: &'a AtomicU64,
        clock: C,
        alloc: Global,
        timed: &TimedPoller<Epoll<C>, C>,
    ) -> std::result::Result<Self, Fault> {
        let epoll = timed.poller();
        let opened = EventFd::new(epoll, 0, &clock)?;
        let (to_loop, accepted) = channel(opened, alloc).map_err(Error::from)?;
        let (first, second) = (Line::new(epoll, &clock)?, Line::new(epoll, &clock)?);
        let mut coming = Vec::new(alloc);
        for socket in [&second, &first] {
            let timer = TimerFd::new(timed, &clock)?;
            let connection = Connection::new(socket.try_clone()?, timer, clock);
            coming.push(connection).map_err(Error::from)?;
        }
        Ok(Server {
            listener: EventFd::new(epoll, 0, &clock)?,
            first,
            second,
            ticks,
            clock,
            coming,
            acceptor: None,
            members: Vec::new(alloc),
            accepted,
            to_loop,
        })
    }
}

type Loop<N, C, P> = TrackedManager<Peer<C>, Look, N, P>;

fn count<N: NamedCounter, C: Wait + Clock + Drop, P: EventPoller, R: Wait + Clock>(
    rt: &R,
    manager: &mut Loop<N, C, P>,
    acceptor: SubscriberId,
    action: Ask,
) -> Result<()> {
    let count = Look {
        subscriber: acceptor,
        action,
    };
    let _counted = manager.act(count, rt)?;
    Ok(())
}

fn let_join<N: NamedCounter, C: Wait + Clock + Drop, P: EventPoller, R: Wait + Clock>(
    rt: &R,
    manager: &mut Loop<N, C, P>,
    acceptor: SubscriberId,
    accepted: Vec<Connection<C>>,
    members: &mut Vec<SubscriberId>,
) -> Result<()> {
    for connection in accepted {
        members.push(manager.add_subscriber(Either::Second(connection))?)?;
        count(rt, manager, acceptor, Ask::CountJoined)?;
    }
    Ok(())
}

fn let_leave<N: NamedCounter, C: Wait + Clock + Drop, P: EventPoller, R: Wait + Clock>(
    rt: &R,
    manager: &mut Loop<N, C, P>,
    acceptor: SubscriberId,
    member: SubscriberId,
) -> Result<()> {
    let is_over = match manager.subscriber(member)? {
        Either::First(_) => false,
        Either::Second(connection) => connection.is_over(),
    };
    if !is_over {
        return Ok(());
    }
    match manager.remove_subscriber(member)? {
        Either::First(_) => Ok(()),
        Either::Second(connection) => {
            count(rt, manager, acceptor, Ask::CountLeft(connection.bytes()))
        }
    }
}

impl<'a, C: Wait + Clock + Copy + Drop, R: Wait + Clock + Print> LoopWithSenders<
    Peer<C>,
    Look,
    Client<'a>,
    R,
> for Server<'a, C> {
    fn begin<N: NamedCounter, P: EventPoller>(
        &mut self,
        rt: &R,
        alloc: Global,
        manager: &mut Loop<N, C, P>,
    ) -> Result<Vec<Client<'a>>> {
        let listener = self.listener.try_clone().map_err(Error::EventFd)?;
        let coming = mem::replace(&mut self.coming, Vec::new(alloc));
        let to_loop = self.to_loop.try_clone(rt)?;
        let acceptor = Acceptor::new(listener, coming, to_loop, self.clock);
        let acceptor = manager.add_subscriber(Either::First(acceptor))?;
        self.acceptor = Some(acceptor);
        let client = Client {
            listener: self.listener.try_clone().map_err(Error::EventFd)?,
            first: self.first.try_clone().map_err(Error::EventFd)?,
            second: self.second.try_clone().map_err(Error::EventFd)?,
            acceptor,
            ticks: self.ticks,
        };
        Ok(vec![in alloc; client]?)
    }

    fn run<N: NamedCounter, P: EventPoller>(
        &mut self,
        rt: &R,
        manager: &mut Loop<N, C, P>,
        senders: &Senders,
    ) -> Result<()> {
        let Some(acceptor) = self.acceptor else {
            return Ok(());
        };
        for _run in rt.forever() {
            if senders.have_ended() {
                break;
            }
            manager.run(rt)?;
            let mut accepted = Vec::new(*self.members.allocator());
            self.accepted.take(&mut accepted, rt)?;
            let_join(rt, manager, acceptor, accepted, &mut self.members)?;
            for member in &self.members {
                let_leave(rt, manager, acceptor, *member)?;
            }
            self.members
                .retain(|member| manager.subscriber(*member).is_ok());
        }
        Ok(())
    }
}

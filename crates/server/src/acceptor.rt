//! The acceptor, and what it can be asked.

ghost use Rattle.std.specs.Prelude.{◌≡◌};
ghost use Rattle.event_manager.specs.CounterEvents.{next_count};
ghost use Rattle.server.specs.Peers.{statistics_of as said_by};

use crate::connection::Connection;
use channels::Sender;
use event_manager::{
    Action, ActionOn, Either, Error, EventOps, EventPoller, EventSet, Events, MutEventSubscriber,
    Result,
};
use std::sync::Wait;
use std::time::Clock;
use vmm_sys::eventfd::EventFd;

/// The subscribers: the acceptor, and its connections.
pub type Peer<R> = Either<Acceptor<R>, Connection<R>>;

/// The counts of connections so far.
#[derive(Clone, Copy, Default, PartialEq, Eq, Debug)]
pub struct Statistics {
    /// The number that were accepted, and joined.
    pub joined: u64,
    /// The number of those that have left.
    pub left: u64,
    /// The bytes that those that left had read.
    pub bytes: u64,
}

/// Accepts a connection at each event of its listener, and sends it to the loop, which lets it join and has it counted.
#[derive(Drop)]
pub struct Acceptor<R> {
    listener: EventFd,
    knocks: Events,
    // The connections to come, the last first.
    coming: Vec<Connection<R>>,
    accepted: Sender<Connection<R>>,
    statistics: Statistics,
    asked: Result<()>,
    rt: R,
}

impl<R: Drop> Acceptor<R> {
    /// An acceptor to which these come, the last first, and which sends them by `accepted`.
    pub fn new(
        listener: EventFd,
        coming: Vec<Connection<R>>,
        accepted: Sender<Connection<R>>,
        rt: R,
    ) -> Self {
        let knocks = Events::new(&listener, EventSet::IN);
        Acceptor {
            listener,
            knocks,
            coming,
            accepted,
            statistics: Statistics::default(),
            asked: Ok(()),
            rt,
        }
    }

    /// Counts a connection that joined.
    pub fn count_joined(&mut self)
        ensures { self.new ≡ record self.old { statistics = record self.old.statistics { joined = next_count self.old.statistics.joined } } }
    {
        self.statistics.joined = self.statistics.joined.saturating_add(1);
    }

    /// Counts a connection that left, and the bytes that it had read.
    pub fn count_left(&mut self, read: u64) {
        let Statistics { left, bytes, .. } = &mut self.statistics;
        *left = left.saturating_add(1);
        *bytes = bytes.saturating_add(read);
    }
}

impl<R: Wait + Clock + Drop> MutEventSubscriber for Acceptor<R> {
    ghost use Rattle.std.specs.Prelude.{◌≡◌, Option, option_to_list, [], ◌∷◌, ◌++◌};
    ghost use Rattle.event_manager.specs.Exchange.{AsksNothing};
    ghost use Rattle.server.specs.declared.connection.Connection.{Connection};
    ghost use Rattle.event_manager.specs.Request.TheVariants.{Add};

    // It asks to add its listener, and keeps the answer.
    ghost begins = { λ v exchanges w. (exchanges ≡ (Add v.knocks, w.asked) ∷ []) × (w ≡ record v { asked = w.asked }) };

    // It asks for nothing, and accepts who comes next, if anybody; nobody is counted before the loop lets them join.
    ghost serves = { λ v event exchanges w. AsksNothing exchanges × (w ≡ record v { coming = w.coming })
        × ((next : Option (Connection R)) × (v.coming.items ≡ w.coming.items ++ option_to_list next)) };

    fn process<P: EventPoller>(&mut self, _events: Events, _ops: &mut EventOps<P>) {
        let _ = self.listener.read(&self.rt);
        if let Some(connection) = self.coming.pop() {
            // A connection that the channel refuses is dropped.
            let _ = self.accepted.send(connection, &self.rt);
        }
    }

    fn init<P: EventPoller>(&mut self, ops: &mut EventOps<P>) {
        self.asked = ops.add(self.knocks);
    }
}

fn statistics_of<R>(peer: &Peer<R>) -> Result<Statistics>
    ensures { result ≡ said_by peer.now }
{
    match peer {
        Either::First(acceptor) => acceptor.asked.map(|()| acceptor.statistics),
        Either::Second(_) => Err(Error::InvalidId),
    }
}

/// A question to an acceptor. It replies its statistics after that, or the refusal of its request; a connection `InvalidId`.
#[derive(Clone, Copy)]
pub enum Ask {
    /// Its statistics.
    Read,
    /// Counts a connection that joined.
    CountJoined,
    /// Counts a connection that left, which had read this many bytes.
    CountLeft(u64),
}

impl<R: Wait + Clock + Drop> Action<Peer<R>> for Ask {
    type Reply = Result<Statistics>;

    ghost use Rattle.std.specs.Prelude.{◌≡◌};
    ghost use Rattle.server.specs.Peers.{statistics_of as said_by};
    ghost use Rattle.server.specs.Asks.{IsLeft};

    // It replies what the peer then says; a peer that is to be read is left as it is.
    ghost does = { λ self v reply w. (reply ≡ said_by w) × IsLeft self v w };

    fn act<W: Wait + Clock>(self, peer: &mut Peer<R>, _rt: &W) -> Result<Statistics> {
        match self {
            Ask::Read => statistics_of(peer),
            Ask::CountJoined => {
                if let Either::First(acceptor) = peer {
                    acceptor.count_joined();
                }
                statistics_of(peer)
            }
            Ask::CountLeft(bytes) => {
                if let Either::First(acceptor) = peer {
                    acceptor.count_left(bytes);
                }
                statistics_of(peer)
            }
        }
    }
}

/// A job of the loop: one peer is asked.
pub type Look = ActionOn<Ask>;

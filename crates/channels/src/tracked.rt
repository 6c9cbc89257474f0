//! Ends of which contracts see the messages.

ghost use Rattle.std.specs.Prelude.{◌≡◌, ◌++◌, ◌∷◌, List, [], Err, None, Some, OnErr, IfErr, MatchOption, MatchResult, option_to_list};
ghost use Rattle.channels.specs.Ends.{counter_of_sender, room_of_sender, IsSendRefusal};

use crate::errors::{CloseError, SendError};
use crate::history::History;
use crate::receiver::Receiver;
use crate::sender::Sender;
use std::alloc::AllocError;
use std::marker::Model;
use std::snapshot::Snapshot;
use std::sync::Wait;
use std::time::Clock;
use vmm_sys::counter::Counter;
use vmm_sys::epoll::{AsRawFd, RawFd};
use vmm_sys::eventfd::EventFd;

/// An end of a channel of which contracts see the messages: what it has sent, or returned, in order. The list is no part of the
/// program that runs.
#[derive(Drop)]
pub struct Tracked<E, M> {
    end: E,
    messages: History<M>,
}

impl<E, M> Model for Tracked<E, M> {
    ghost use Rattle.channels.specs.Tracked.{EndWithMessages};

    ghost Value = { EndWithMessages E M };

    ghost view = { λ it. record { end = it.end; messages = it.messages.items } };
}

impl<E, M> Tracked<E, M> {
    /// One that has sent or returned nothing yet.
    pub fn new(end: E) -> Self
        ensures { result ≡ record { end = end; messages = [] } }
    {
        Tracked {
            end,
            messages: History::new(),
        }
    }
}

/// A sender of which contracts see what it has sent, so that a relation can say what its owner sends. What others send by clones of
/// it isn't in the list.
pub type TrackedSender<M, C = EventFd> = Tracked<Sender<M, C>, M>;

impl<M: Drop, C: Counter + Drop> Tracked<Sender<M, C>, M> {
    /// As [`Sender::send`].
    pub fn send<R: Wait + Clock>(&mut self, message: M, rt: &R) -> Result<(), SendError<M>>
        ensures sent { MatchResult result (λ _. self.new ≡ record self.old { messages = self.old.messages ++ message ∷ [] }) (λ _. self.new ≡ self.old) }
        ensures handed_back { IfErr result (λ refused. refused.message ≡ message) }
        ensures refusals { IfErr result (λ refused. IsSendRefusal (C.rings (counter_of_sender self.old.end)) refused.why) }
    {
        let snapshot = Snapshot::of(&message);
        self.end.send(message, rt)?;
        self.messages.push(snapshot);
        Ok(())
    }

    /// As [`Sender::room`].
    pub fn room(&self) -> Option<&C>
        ensures { MatchOption result (room_of_sender self.now.end ≡ None) (λ counter. room_of_sender self.now.end ≡ Some counter.now) }
    {
        self.end.room()
    }

    /// As [`Sender::close`]. A sender that comes back isn't tracked any more.
    pub fn close<R: Wait + Clock>(self, rt: &R) -> Result<(), CloseError<Sender<M, C>>>
        ensures handed_back { IfErr result (λ refused. (refused.sender ≡ self.end) × C.rings (counter_of_sender self.end) (Err refused.errno)) }
    {
        let Tracked { end: sender, .. } = self;
        sender.close(rt)
    }
}

/// A receiver of which contracts see what it has returned, with the receiver's descriptor.
pub type TrackedReceiver<M, C = EventFd> = Tracked<Receiver<M, C>, M>;

impl<M: Drop, C: Counter + Drop> Tracked<Receiver<M, C>, M> {
    /// As [`Receiver::take`].
    pub fn take<R: Wait + Clock>(&mut self, into: &mut Vec<M>, rt: &R) -> Result<(), AllocError>
        ensures taken { (taken : List M) × (into.new.items ≡ into.old.items ++ taken) × (self.new ≡ record self.old { messages = self.old.messages ++ taken }) × OnErr result (taken ≡ []) }
    {
        let from = into.len();
        self.end.take(into, rt)?;
        self.messages.push_rest(into, from);
        Ok(())
    }

    /// As [`Receiver::recv`].
    pub fn recv<R: Wait + Clock>(&mut self, rt: &R) -> Option<M>
        ensures { self.new ≡ record self.old { messages = self.old.messages ++ option_to_list result } }
    {
        let message = self.end.recv(rt)?;
        self.messages.push(Snapshot::of(&message));
        Some(message)
    }

    /// As [`Receiver::is_over`].
    pub fn is_over<R: Wait>(&self, rt: &R) -> bool {
        self.end.is_over(rt)
    }

    /// As [`Receiver::pending`].
    pub fn pending(&self) -> Option<usize> {
        self.end.pending()
    }

    /// As [`Receiver::close`].
    pub fn close<R: Wait + Clock>(self, rt: &R) -> Vec<M> {
        self.end.close(rt)
    }
}

impl<M, C: AsRawFd> AsRawFd for Tracked<Receiver<M, C>, M> {
    ghost use Rattle.channels.specs.Ends.{counter_of_receiver};

    ghost descriptor = { λ it. C.descriptor (counter_of_receiver it.end) };

    fn as_raw_fd(&self) -> RawFd {
        self.end.as_raw_fd()
    }
}
